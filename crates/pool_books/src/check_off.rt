//! Each answer, and each job that is left, checks off the submitted job with its ticket: it leaves the index.
ghost use Rattle.std.specs.Prelude.{◌++◌, ◌∷◌, Contains, IsPermutation, MatchBool};
ghost use Rattle.std.specs.HashMap.{keys};
ghost use Rattle.pool_books.specs.Cleared.{joined, lists_of, tickets_of, answered_tickets};
ghost use Rattle.pool_books.specs.Index.{AreOnceAmong};

use crate::answer::Answer;
use crate::index::JobIndex;
use crate::job::{PoolJob, Ticket};

/// Whether each answer of these lists checks off a job.
pub(crate) fn check_off_answers(index: &mut JobIndex, answers: &[Vec<Answer>]) -> bool
    ensures { MatchBool result
        (IsPermutation (keys index.old) (answered_tickets (joined (lists_of answers.now)) ++ keys index.new))
        (AreOnceAmong (keys index.old) (answered_tickets (joined (lists_of answers.now))) → ⊥) }
{
    for list in answers {
        if !check_off_list(index, list.as_slice()) {
            return false;
        }
    }
    true
}

fn check_off_list(index: &mut JobIndex, answers: &[Answer]) -> bool
    ensures { MatchBool result
        (IsPermutation (keys index.old) (answered_tickets answers.now ++ keys index.new))
        (AreOnceAmong (keys index.old) (answered_tickets answers.now) → ⊥) }
{
    for answer in answers {
        if !take_out(index, answer.ticket) {
            return false;
        }
    }
    true
}

/// Whether each of these jobs checks off one.
pub(crate) fn check_off_left(index: &mut JobIndex, left: &[PoolJob]) -> bool
    ensures { MatchBool result
        (IsPermutation (keys index.old) (tickets_of left.now ++ keys index.new))
        (AreOnceAmong (keys index.old) (tickets_of left.now) → ⊥) }
{
    for job in left {
        if !take_out(index, job.ticket) {
            return false;
        }
    }
    true
}

/// Takes the job with this ticket out of the index. Says whether it was there.
fn take_out(index: &mut JobIndex, ticket: Ticket) -> bool
    ensures { MatchBool result (IsPermutation (keys index.old) (ticket ∷ keys index.new))
        (Contains (keys index.old) ticket → ⊥) }
{
    index.remove(&ticket).is_some()
}
