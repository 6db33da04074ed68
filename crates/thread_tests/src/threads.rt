//! Threads that each submit jobs and work on them, through one queue.
ghost use Rattle.crossbeam_queue.specs.Passes.{IsPassOf};

use crate::gates::{Answers, TestGate};
use crate::report::Report;
use crate::signers::{KeyPool, gate_of, head};
use crate::stands::{Slot, Stand, stand_of};
use fixtures::Key;
use sign_base::Head;
use sign_pool::{SubmitError, Work};
use signer_shared::Gate;
use std::alloc::Global;
use std::process::Abort;
use std::sync::Wait;
use std::thread::{Threads, join_mut};

/// Submits a head. Each time that it meets a full queue, it works on one job itself and tries again.
/// `None` where an allocation failed.
fn submit_one<G: Gate<Key>, R: Wait>(
    rt: &R,
    pool: &KeyPool,
    gate: &G,
    slot: &mut Slot,
    mut head: Head,
) -> Option<()>
    requires submits { IsPassOf pool.now.queue slot.old.submitter.seat }
    requires works { IsPassOf pool.now.queue slot.old.worker.seat }
    ensures submits { IsPassOf pool.now.queue slot.new.submitter.seat }
    ensures works { IsPassOf pool.now.queue slot.new.worker.seat }
{
    for _ in rt.forever() {
        let Err(refused) = pool.submit(rt, &mut slot.submitter, head, None) else {
            return Some(());
        };
        if refused.why == SubmitError::OutOfMemory {
            return None;
        }
        slot.met_full = true;
        head = refused.head;
        pool.work(rt, &mut slot.worker, gate, 1);
    }
    unreachable!()
}

/// Works until the queue holds no job. `None` where an allocation failed.
fn work_on<G: Gate<Key>, R: Wait>(rt: &R, pool: &KeyPool, gate: &G, slot: &mut Slot) -> Option<()>
    requires submits { IsPassOf pool.now.queue slot.old.submitter.seat }
    requires works { IsPassOf pool.now.queue slot.old.worker.seat }
    ensures submits { IsPassOf pool.now.queue slot.new.submitter.seat }
    ensures works { IsPassOf pool.now.queue slot.new.worker.seat }
{
    for _ in rt.forever() {
        match pool.work(rt, &mut slot.worker, gate, 1) {
            Work::Served(_) => {}
            Work::Empty => return Some(()),
            Work::OutOfMemory => return None,
        }
    }
    unreachable!()
}

/// Submits so many jobs, and works until the queue holds none. `None` where an allocation failed.
fn run_slot<G: Gate<Key>, R: Wait>(
    rt: &R,
    alloc: Global,
    pool: &KeyPool,
    gate: &G,
    jobs: u64,
    slot: &mut Slot,
) -> Option<()>
    requires submits { IsPassOf pool.now.queue slot.old.submitter.seat }
    requires works { IsPassOf pool.now.queue slot.old.worker.seat }
    ensures submits { IsPassOf pool.now.queue slot.new.submitter.seat }
    ensures works { IsPassOf pool.now.queue slot.new.worker.seat }
{
    for _ in 0..jobs {
        submit_one(rt, pool, gate, slot, head(alloc)?)?;
    }
    work_on(rt, pool, gate, slot)
}

/// A thread for each slot. Both are joined.
fn run_both<G: Gate<Key> + Sync, R: Threads + Wait + Sync>(
    rt: &R,
    alloc: Global,
    pool: &KeyPool,
    gate: &G,
    jobs: u64,
    first: &mut Slot,
    second: &mut Slot,
)
    requires first_submits { IsPassOf pool.now.queue first.old.submitter.seat }
    requires first_works { IsPassOf pool.now.queue first.old.worker.seat }
    requires second_submits { IsPassOf pool.now.queue second.old.submitter.seat }
    requires second_works { IsPassOf pool.now.queue second.old.worker.seat }
    ensures first_submits { IsPassOf pool.now.queue first.new.submitter.seat }
    ensures first_works { IsPassOf pool.now.queue first.new.worker.seat }
    ensures second_submits { IsPassOf pool.now.queue second.new.submitter.seat }
    ensures second_works { IsPassOf pool.now.queue second.new.worker.seat }
{
    join_mut(
        rt,
        &mut || run_slot(rt, alloc, pool, gate, jobs, first),
        &mut || run_slot(rt, alloc, pool, gate, jobs, second),
    );
}

/// The same of a pool's slots.
fn run_stand<G: Gate<Key> + Sync, R: Threads + Wait + Sync>(
    rt: &R,
    alloc: Global,
    stand: &mut Stand,
    gate: &G,
    jobs: u64,
) {
    run_both(
        rt,
        alloc,
        &stand.pool,
        gate,
        jobs,
        &mut stand.first,
        &mut stand.second,
    );
}

/// A pool through whose queue, which holds so many jobs, two threads submitted so many jobs each, and served
/// all. Whether a thread met a full queue, and what is told of the pool.
fn served<R: Threads + Wait + Sync + Abort>(
    rt: &R,
    alloc: Global,
    capacity: usize,
    jobs: u64,
    gate: &TestGate<Key>,
) -> (bool, Report) {
    let mut stand = stand_of(alloc, capacity).expect(rt, "memory");
    run_stand(rt, alloc, &mut stand, gate, jobs);
    let met_full = stand.first.met_full | stand.second.met_full;
    (met_full, stand.finish(rt, alloc).expect(rt, "memory"))
}

/// How the gate answers, how many jobs the queue holds, how many each thread submits; whether a thread meets
/// a full queue.
static ROWS: [(Answers, usize, u64, bool); 4] = [
    (Answers::Signs, 1, 100, true),
    (Answers::Signs, 2, 100, true),
    (Answers::Signs, 16, 100, true),
    // The loads of the two threads wait for each other.
    (Answers::LoadsMeet, 2, 1, false),
];

#[test]
fn two_threads_submit_and_serve(rt: HostRuntime) {
    for (answers, capacity, jobs, full) in &ROWS {
        let gate = gate_of(rt.alloc(), *answers).expect(&rt, "a moment");
        let (met_full, report) = served(&rt, rt.alloc(), *capacity, *jobs, &gate);
        assert!(rt; (met_full == *full) & report.all_done(2 * *jobs));
    }
}
