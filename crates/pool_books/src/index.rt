//! The submitted jobs by their tickets.
ghost use Rattle.std.specs.Prelude.{◌≡◌, ◌++◌, ◌<◌, List, All, AllPairs, ◌≢◌, Contains, IfOk, IsPermutation};
ghost use Rattle.std.specs.Prelude.{IsSomeAnd, IsTrue, MatchOption, MatchBool, slice_get};
ghost use Rattle.std.specs.HashMap.{keys};
ghost use Rattle.pool_books.specs.Cleared.{joined, lists_of, tickets_of};
ghost use Rattle.pool_books.specs.Index.{IsIndexOf, IsPlaceOf};

use crate::job::{PoolJob, Ticket};
use sign_base::NoMemory;
use std::collections::HashMap;

/// Where a submitted job is: in the list of this submitter, at this place.
#[derive(Clone, Copy, Debug)]
pub struct JobPlace {
    pub submitter: usize,
    pub at: usize,
}

/// The places of jobs by their tickets.
pub type JobIndex = HashMap<Ticket, JobPlace>;

/// Adds the places of one submitter's jobs. Says whether each has a ticket that the index did not have.
pub fn index_list(
    index: &mut JobIndex,
    submitter: usize,
    jobs: &[PoolJob],
) -> Result<bool, NoMemory<()>>
    requires { AllPairs (λ a b. a ≢ b) (keys index.old) }
    ensures apart { AllPairs (λ a b. a ≢ b) (keys index.new) }
    ensures keys { IfOk result (λ own. MatchBool own
        (IsPermutation (keys index.old ++ tickets_of jobs.now) (keys index.new))
        (AllPairs (λ a b. a ≢ b) (keys index.old ++ tickets_of jobs.now) → ⊥)) }
    ensures places { (lists : List (List PoolJob))
        → IsSomeAnd (slice_get lists submitter) (λ list. list ≡ jobs.now)
        → All (IsPlaceOf lists) index.old.entries
        → IfOk result (λ own. IsTrue own → All (IsPlaceOf lists) index.new.entries) }
{
    for (at, job) in jobs.iter().enumerate() {
        let place = JobPlace { submitter, at };
        if let Some(_other) = index.insert(job.ticket, place)? {
            return Ok(false);
        }
    }
    Ok(true)
}

/// The submitted job with this ticket.
pub(crate) fn job_of<'a>(
    index: &JobIndex,
    submitted: &'a [Vec<PoolJob>],
    ticket: Ticket,
) -> Option<&'a PoolJob>
    requires { IsIndexOf (lists_of submitted.now) index.now }
    ensures { MatchOption result (Contains (tickets_of (joined (lists_of submitted.now))) ticket → ⊥)
        (λ job. (job.now.ticket ≡ ticket) × Contains (joined (lists_of submitted.now)) job.now) }
{
    let Some(place) = index.get(&ticket) else {
        return None;
    };
    let jobs = submitted[place.submitter].as_slice();
    Some(&jobs[place.at])
}
