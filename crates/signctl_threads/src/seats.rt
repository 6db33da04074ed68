//! The seats of a queue when all its jobs are answered.
ghost use Rattle.std.specs.Prelude.{◌≡◌, ◌<◌, ◌≤◌, IfOk};
ghost use Rattle.crossbeam_queue.specs.Passes.{ruled_capacity};
ghost use Rattle.desk_parts.specs.Tables.{setup_of};
ghost use Rattle.sign_pool.specs.Finish.{HasAllSeats};
ghost use Rattle.pool_jobs.specs.Setup.{pool_setup};
ghost use Rattle.signctl_threads.specs.Slots.{AreNewSlots, AreServedSeats, AreServedSlots};

use crate::check::{any_ran_out, any_stopped};
use crate::desk::{QueuePool, queue_pool};
use crate::rest::work_on_rest;
use crate::slots::{Slot, into_seats, new_slots};
use crate::threads::run_submitters;
use sign_base::NoMemory;
use sign_pool::{Submitter, Worker};
use signctl_format::ScriptCredential;
use signer_shared::Gate;
use std::alloc::Global;
use std::sync::Wait;
use std::thread::Threads;

/// A pool, and all its seats.
#[derive(Drop)]
pub(crate) struct ServedPool {
    pub pool: QueuePool,
    pub submitters: Vec<Submitter>,
    pub workers: Vec<Worker<ScriptCredential>>,
}

/// A pool through whose queue so many workers have served so many jobs.
///
/// Errors: an allocation failed, in a thread, in a job, or before or behind all of them.
pub(crate) fn served_pool<G: Gate<ScriptCredential> + Sync, R: Threads + Wait + Sync>(
    rt: &R,
    alloc: Global,
    workers: u32,
    jobs: u64,
    capacity: usize,
    gate: &G,
) -> Result<ServedPool, NoMemory<()>>
    requires some { 0 < workers }
    requires capacity { (0 < capacity) × (capacity ≤ 65536) }
    ensures setup { IfOk result (λ served. setup_of served.pool.shared ≡ pool_setup workers) }
    ensures capacity { IfOk result (λ served. ruled_capacity served.pool.queue ≡ capacity) }
    ensures all { IfOk result (λ served. HasAllSeats served.pool.submitters served.pool.workers
        served.submitters.items served.workers.items) }
    ensures seats { IfOk result (λ served. AreServedSeats served.pool.queue
        (G.meaning gate.now) workers jobs served.submitters.items served.workers.items) }
{
    let mut pool = queue_pool(alloc, workers, capacity)?;
    let mut slots = new_slots(alloc, &mut pool, workers)?;
    serve_slots(rt, alloc, &pool, gate, workers, jobs, slots.as_mut_slice())?;
    let (submitters, workers) = into_seats(alloc, slots)?;
    Ok(ServedPool {
        pool,
        submitters,
        workers,
    })
}

/// Runs the threads, and works on what they left.
///
/// Errors: an allocation failed, in a thread or in a job.
fn serve_slots<G: Gate<ScriptCredential> + Sync, R: Threads + Wait + Sync>(
    rt: &R,
    alloc: Global,
    pool: &QueuePool,
    gate: &G,
    workers: u32,
    jobs: u64,
    slots: &mut [Slot],
) -> Result<(), NoMemory<()>>
    requires some { 0 < workers }
    requires slots { AreNewSlots pool.now.queue workers slots.old }
    ensures { IfOk result (λ _. AreServedSlots pool.now.queue (G.meaning gate.now) workers jobs slots.new) }
{
    run_submitters(rt, alloc, pool, gate, workers, jobs, slots);
    if any_stopped(slots) {
        return Err(NoMemory { back: () });
    }
    work_on_rest(rt, pool, gate, workers, jobs, slots)?;
    if any_ran_out(slots) {
        return Err(NoMemory { back: () });
    }
    Ok(())
}
