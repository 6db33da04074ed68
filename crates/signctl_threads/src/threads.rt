//! The threads: each submits its share of the jobs and then works until the queue is empty.
ghost use Rattle.std.specs.Prelude.{◌≡◌, ◌<◌, ◌+◌, false, length, IfOk};
ghost use Rattle.signctl_threads.specs.Jobs.{share};
ghost use Rattle.signctl_threads.specs.Slots.{AreNewSlots, AreRunSlots, GoesOn, IsRun, IsSlot};

use crate::desk::QueuePool;
use crate::slots::Slot;
use crate::submit::submit_jobs;
use crate::work::work_until_empty;
use sign_base::NoMemory;
use signctl_format::ScriptCredential;
use signer_shared::Gate;
use std::alloc::Global;
use std::sync::Wait;
use std::thread;
use std::thread::Threads;

/// A thread for each slot. All are joined.
pub(crate) fn run_submitters<G: Gate<ScriptCredential> + Sync, R: Threads + Wait + Sync>(
    rt: &R,
    alloc: Global,
    pool: &QueuePool,
    gate: &G,
    workers: u32,
    jobs: u64,
    slots: &mut [Slot],
)
    requires some { 0 < workers }
    requires slots { AreNewSlots pool.now.queue workers slots.old }
    ensures { AreRunSlots pool.now.queue (G.meaning gate.now) workers jobs slots.new }
{
    let threads = slots.len();
    let thread = move |place: usize, slot: &mut Slot|
        requires { (0 < workers) × IsSlot pool.now.queue (G.meaning gate.now) slot.now }
        ensures { IsRun pool.entry.now.queue (G.meaning gate.entry.now)
            workers jobs place slot.entry.now slot.exit.now }
    { run_slot(rt, alloc, pool, gate, share(workers, jobs, place), slot) };
    thread::for_each_mut(rt, slots, threads, &thread);
}

/// Submits so many jobs, and works until the queue is empty. The slot says where an allocation failed.
fn run_slot<G: Gate<ScriptCredential>, R: Wait>(
    rt: &R,
    alloc: Global,
    pool: &QueuePool,
    gate: &G,
    jobs: u64,
    slot: &mut Slot,
)
    requires { IsSlot pool.now.queue (G.meaning gate.now) slot.old }
    ensures slot { GoesOn pool.now.queue (G.meaning gate.now) slot.old slot.new }
    ensures count { slot.new.out_of_memory ≡ false
        → length slot.new.submitter.jobs.items ≡ length slot.old.submitter.jobs.items + jobs }
{
    slot.out_of_memory = submit_and_work(rt, alloc, pool, gate, jobs, slot).is_err();
}

fn submit_and_work<G: Gate<ScriptCredential>, R: Wait>(
    rt: &R,
    alloc: Global,
    pool: &QueuePool,
    gate: &G,
    jobs: u64,
    slot: &mut Slot,
) -> Result<(), NoMemory<()>>
    requires { IsSlot pool.now.queue (G.meaning gate.now) slot.old }
    ensures slot { GoesOn pool.now.queue (G.meaning gate.now) slot.old slot.new }
    ensures count { IfOk result
        (λ _. length slot.new.submitter.jobs.items ≡ length slot.old.submitter.jobs.items + jobs) }
{
    submit_jobs(rt, alloc, pool, gate, jobs, slot)?;
    work_until_empty(rt, pool, gate, &mut slot.worker)
}

/// How many of so many jobs are those of the thread at this place: job j is that of thread j mod W.
fn share(workers: u32, jobs: u64, place: usize) -> u64
    requires { 0 < workers }
    ensures { result ≡ share workers jobs place }
{
    let count = u64::from(workers);
    let more = (place as u64) < jobs % count;
    jobs / count + u64::from(more)
}
