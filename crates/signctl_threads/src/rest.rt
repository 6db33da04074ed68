//! What the caller does when all threads have returned.
ghost use Rattle.std.specs.Prelude.{◌≡◌, ◌≢◌, ◌<◌, IfOk, true, false, length, All};
ghost use Rattle.signctl_threads.specs.Slots.{AreRunSlots, DidNotStop, answered_in};

use crate::desk::QueuePool;
use crate::slots::Slot;
use crate::work::work_one;
use sign_base::NoMemory;
use sign_pool::Work;
use signctl_format::ScriptCredential;
use signer_shared::Gate;
use std::sync::Wait;

/// Works with the first worker until there are as many answers as jobs.
///
/// Errors: an allocation failed.
pub(crate) fn work_on_rest<G: Gate<ScriptCredential>, R: Wait>(
    rt: &R,
    pool: &QueuePool,
    gate: &G,
    workers: u32,
    jobs: u64,
    slots: &mut [Slot],
) -> Result<(), NoMemory<()>>
    requires some { 0 < workers }
    requires slots { AreRunSlots pool.now.queue (G.meaning gate.now) workers jobs slots.old }
    requires stopped { All DidNotStop slots.old }
    ensures slots { IfOk result
        (λ _. AreRunSlots pool.now.queue (G.meaning gate.now) workers jobs slots.new) }
    ensures stopped { IfOk result (λ _. All DidNotStop slots.new) }
    ensures answered { IfOk result (λ _. answered_in slots.new ≡ jobs) }
{
    for _ in rt.forever() {
        if all_answered(slots, jobs) {
            return Ok(());
        }
        if work_one(rt, pool, gate, &mut slots[0].worker) == Work::OutOfMemory {
            return Err(NoMemory { back: () });
        }
    }
    unreachable!()
}

/// Whether there are as many answers as jobs.
fn all_answered(slots: &[Slot], jobs: u64) -> bool
    ensures all { result ≡ true → answered_in slots.now ≡ jobs }
    ensures others { result ≡ false → answered_in slots.now ≢ jobs }
{
    let mut missing = jobs;
    for slot in slots {
        let count = slot.worker.answers().len() as u64;
        if count > missing {
            return false;
        }
        missing -= count;
    }
    missing == 0
}
