//! What a pool's seats kept, as its books want it: an index of the submitted jobs, and blank notes.
ghost use Rattle.std.specs.Prelude.{MatchOption, IfOk};
ghost use Rattle.pool_books.specs.Cleared.{joined};
ghost use Rattle.pool_books.specs.Index.{HaveOwnTickets, IsIndexOf};
ghost use Rattle.pool_books.specs.Notes.{AreBlank, HaveNotes};
ghost use Rattle.sign_pool.specs.Seats.{answers_of, jobs_of};

use crate::seats::{Submitter, Worker};
use pool_books::{CallNotes, JobIndex, add_blank_notes, index_list};
use sign_base::NoMemory;
use std::alloc::Global;
use std::collections::HashMap;

/// The places of all submitted jobs, or `None` where two of them have one ticket.
pub(crate) fn index_jobs(
    alloc: Global,
    submitters: &[Submitter],
) -> Result<Option<JobIndex>, NoMemory<()>>
    ensures { IfOk result (λ index. MatchOption index (HaveOwnTickets (joined (jobs_of submitters.now)) → ⊥)
        (IsIndexOf (jobs_of submitters.now))) }
{
    let mut index = HashMap::new(alloc);
    for (submitter, seat) in submitters.iter().enumerate() {
        if !index_list(&mut index, submitter, seat.jobs())? {
            return Ok(None);
        }
    }
    Ok(Some(index))
}

/// A note without an entry for the call of each answer.
pub(crate) fn blank_notes<K>(
    alloc: Global,
    workers: &[Worker<K>],
) -> Result<CallNotes, NoMemory<()>>
    ensures { IfOk result (λ notes. AreBlank notes × HaveNotes (answers_of workers.now) notes) }
{
    let mut notes = HashMap::new(alloc);
    for worker in workers {
        add_blank_notes(&mut notes, worker.answers())?;
    }
    Ok(notes)
}
