//! Submitting jobs: where the queue is full, the thread works on one itself.
ghost use Rattle.std.specs.Prelude.{◌≡◌, ◌+◌, length, IfOk};
ghost use Rattle.signctl_threads.specs.Slots.{GoesOn, IsSlot};

use crate::desk::QueuePool;
use crate::slots::Slot;
use crate::work::work_one;
use pool_jobs::pool_head;
use sign_base::NoMemory;
use sign_pool::{SubmitError, Work};
use signctl_format::ScriptCredential;
use signer_shared::Gate;
use std::alloc::Global;
use std::sync::Wait;

/// Submits so many jobs.
///
/// Errors: an allocation failed.
pub(crate) fn submit_jobs<G: Gate<ScriptCredential>, R: Wait>(
    rt: &R,
    alloc: Global,
    pool: &QueuePool,
    gate: &G,
    jobs: u64,
    slot: &mut Slot,
) -> Result<(), NoMemory<()>>
    requires { IsSlot pool.now.queue (G.meaning gate.now) slot.old }
    ensures slot { GoesOn pool.now.queue (G.meaning gate.now) slot.old slot.new }
    ensures count { IfOk result
        (λ _. length slot.new.submitter.jobs.items ≡ length slot.old.submitter.jobs.items + jobs) }
{
    for _job in 0..jobs {
        submit_job(rt, alloc, pool, gate, slot)?;
    }
    Ok(())
}

/// Submits a job. Each time that it meets a full queue, it works on one job and tries again.
///
/// Errors: an allocation failed.
fn submit_job<G: Gate<ScriptCredential>, R: Wait>(
    rt: &R,
    alloc: Global,
    pool: &QueuePool,
    gate: &G,
    slot: &mut Slot,
) -> Result<(), NoMemory<()>>
    requires { IsSlot pool.now.queue (G.meaning gate.now) slot.old }
    ensures slot { GoesOn pool.now.queue (G.meaning gate.now) slot.old slot.new }
    ensures count { IfOk result
        (λ _. length slot.new.submitter.jobs.items ≡ length slot.old.submitter.jobs.items + 1) }
{
    let mut head = pool_head(alloc)?;
    for _ in rt.forever() {
        let Err(refused) = pool.submit(rt, &mut slot.submitter, head, None) else {
            return Ok(());
        };
        if refused.why == SubmitError::OutOfMemory {
            return Err(NoMemory { back: () });
        }
        head = refused.head;
        if work_one(rt, pool, gate, &mut slot.worker) == Work::OutOfMemory {
            return Err(NoMemory { back: () });
        }
    }
    unreachable!()
}
