//! The slots of threads: in each, what one thread submits with and works with.
ghost use Rattle.std.specs.Prelude.{◌≡◌, IfOk, map};
ghost use Rattle.signctl_threads.specs.Slots.{AreNewSlots};

use crate::desk::QueuePool;
use sign_base::NoMemory;
use sign_pool::{Submitter, Worker};
use signctl_format::ScriptCredential;
use std::alloc::Global;

/// What one thread has, and whether it stopped since an allocation failed.
#[derive(Drop)]
pub(crate) struct Slot {
    pub submitter: Submitter,
    pub worker: Worker<ScriptCredential>,
    pub out_of_memory: bool,
}

/// So many slots, the worker of each with the handle of its place.
///
/// Errors: an allocation failed.
pub(crate) fn new_slots(
    alloc: Global,
    pool: &mut QueuePool,
    count: u32,
) -> Result<Vec<Slot>, NoMemory<()>>
    requires submitters { pool.old.submitters ≡ 0 }
    requires workers { pool.old.workers ≡ 0 }
    ensures slots { IfOk result (λ slots. AreNewSlots pool.new.queue count slots.items) }
    ensures submitters { IfOk result (λ slots. pool.new.submitters ≡ count) }
    ensures workers { IfOk result (λ slots. pool.new.workers ≡ count) }
    ensures plan { IfOk result (λ slots. pool.new.shared ≡ pool.old.shared) }
    ensures queue { IfOk result (λ slots. pool.new.queue ≡ pool.old.queue) }
{
    let mut slots = Vec::with_capacity(alloc, count as usize)?;
    for place in 0..count {
        let submitter = pool.submitter()?;
        let Ok(worker) = pool.worker(place) else {
            return Err(NoMemory { back: () });
        };
        slots.push_reserved(Slot {
            submitter,
            worker,
            out_of_memory: false,
        });
    }
    Ok(slots)
}

/// The submitters and the workers, in the order of the slots.
///
/// Errors: an allocation failed.
pub(crate) fn into_seats(
    alloc: Global,
    slots: Vec<Slot>,
) -> Result<(Vec<Submitter>, Vec<Worker<ScriptCredential>>), NoMemory<()>>
    ensures submitters { IfOk result (λ seats. seats.0.items ≡ map (λ s. s.submitter) slots.items) }
    ensures workers { IfOk result (λ seats. seats.1.items ≡ map (λ s. s.worker) slots.items) }
{
    let mut submitters = Vec::with_capacity(alloc, slots.len())?;
    let mut workers = Vec::with_capacity(alloc, slots.len())?;
    for slot in slots {
        submitters.push_reserved(slot.submitter);
        workers.push_reserved(slot.worker);
    }
    Ok((submitters, workers))
}
