//! Whether the books of a pool balance, by an index of its submitted jobs and notes of its answers' calls.
//! Each job and each answer is looked at once.
ghost use Rattle.std.specs.Prelude.{◌≡◌, ◌≢◌, ◌++◌, All, AllPairs, Contains, IsPermutation, MatchBool};
ghost use Rattle.std.specs.HashMap.{keys};
ghost use Rattle.pool_books.specs.Cleared.{joined, lists_of, tickets_of, answered_tickets, IsCleared};
ghost use Rattle.pool_books.specs.Index.{IsIndexOf};
ghost use Rattle.pool_books.specs.Notes.{AreRead, HaveNotes};

use crate::answer::Answer;
use crate::begun::are_begun_as_submitted;
use crate::check_off::{check_off_answers, check_off_left};
use crate::index::{JobIndex, job_of};
use crate::job::PoolJob;
use crate::notes::CallNotes;
use sequential_signer::Entry;
use sign_desk::same_head;

/// Whether the pool with these answers and jobs is cleared.
pub(crate) fn is_cleared<K>(
    index: JobIndex,
    notes: &CallNotes,
    journal: &[Entry<K>],
    answers: &[Vec<Answer>],
    left: &[PoolJob],
    submitted: &[Vec<PoolJob>],
) -> bool
    requires index { IsIndexOf (lists_of submitted.now) index }
    requires notes { AreRead journal.now notes.now }
    requires noted { HaveNotes (joined (lists_of answers.now)) notes.now }
    ensures { MatchBool result
        (IsCleared journal.now (joined (lists_of answers.now)) left.now (joined (lists_of submitted.now)))
        (IsCleared journal.now (joined (lists_of answers.now)) left.now (joined (lists_of submitted.now))
        → ⊥) }
{
    if !are_as_submitted(&index, submitted, left) {
        return false;
    }
    if !are_begun_as_submitted(&index, notes, journal, answers, submitted) {
        return false;
    }
    are_each_once(index, answers, left)
}

/// Whether each job that is left is as it was submitted.
fn are_as_submitted(index: &JobIndex, submitted: &[Vec<PoolJob>], left: &[PoolJob]) -> bool
    requires { IsIndexOf (lists_of submitted.now) index.now }
    ensures { MatchBool result (All (Contains (joined (lists_of submitted.now))) left.now)
        (All (Contains (joined (lists_of submitted.now))) left.now → ⊥) }
{
    for job in left {
        if !is_as_submitted(index, submitted, job) {
            return false;
        }
    }
    true
}

fn is_as_submitted(index: &JobIndex, submitted: &[Vec<PoolJob>], job: &PoolJob) -> bool
    requires { IsIndexOf (lists_of submitted.now) index.now }
    ensures { MatchBool result (Contains (joined (lists_of submitted.now)) job.now)
        (Contains (joined (lists_of submitted.now)) job.now → ⊥) }
{
    match job_of(index, submitted, job.ticket) {
        Some(same) => have_same_input(same, job),
        None => false,
    }
}

/// Whether two jobs have the same head and duration.
fn have_same_input(a: &PoolJob, b: &PoolJob) -> bool
    ensures { MatchBool result ((a.now.head ≡ b.now.head) × (a.now.expires_in ≡ b.now.expires_in))
        ((a.now.head ≡ b.now.head) × (a.now.expires_in ≡ b.now.expires_in) → ⊥) }
{
    a.expires_in == b.expires_in && same_head(&a.head, &b.head)
}

/// Whether the tickets of answers and of the jobs that are left are those of the index, each once.
fn are_each_once(mut index: JobIndex, answers: &[Vec<Answer>], left: &[PoolJob]) -> bool
    requires { AllPairs (λ a b. a ≢ b) (keys index) }
    ensures { MatchBool result
        (IsPermutation (keys index) (answered_tickets (joined (lists_of answers.now)) ++ tickets_of left.now))
        (IsPermutation (keys index) (answered_tickets (joined (lists_of answers.now)) ++ tickets_of left.now)
        → ⊥) }
{
    if !check_off_answers(&mut index, answers) {
        return false;
    }
    if !check_off_left(&mut index, left) {
        return false;
    }
    index.is_empty()
}
