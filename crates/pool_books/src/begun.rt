//! Whether the calls of answers were begun with what was submitted, by the notes of the calls.
ghost use Rattle.std.specs.Prelude.{All, IsSome, MatchBool};
ghost use Rattle.pool_books.specs.Cleared.{joined, lists_of};
ghost use Rattle.pool_books.specs.Index.{IsBegunJob, IsIndexOf};
ghost use Rattle.pool_books.specs.Notes.{AreBegins, AreBeginsWith, AreRead, HaveNotes, note_of};

use crate::answer::Answer;
use crate::index::{JobIndex, job_of};
use crate::job::PoolJob;
use crate::notes::{Begins, CallNotes, is_begin_with};
use sequential_signer::Entry;
use sign_base::{CallId, Head};
use std::time::Duration;

/// Whether each answer is of a submitted job, as which its call was begun.
pub(crate) fn are_begun_as_submitted<K>(
    index: &JobIndex,
    notes: &CallNotes,
    journal: &[Entry<K>],
    answers: &[Vec<Answer>],
    submitted: &[Vec<PoolJob>],
) -> bool
    requires index { IsIndexOf (lists_of submitted.now) index.now }
    requires notes { AreRead journal.now notes.now }
    requires noted { HaveNotes (joined (lists_of answers.now)) notes.now }
    ensures { MatchBool result
        (All (IsBegunJob (joined (lists_of submitted.now)) journal.now) (joined (lists_of answers.now)))
        (All (IsBegunJob (joined (lists_of submitted.now)) journal.now) (joined (lists_of answers.now)) → ⊥) }
{
    for list in answers {
        if !list_is_begun(index, notes, journal, list.as_slice(), submitted) {
            return false;
        }
    }
    true
}

fn list_is_begun<K>(
    index: &JobIndex,
    notes: &CallNotes,
    journal: &[Entry<K>],
    answers: &[Answer],
    submitted: &[Vec<PoolJob>],
) -> bool
    requires index { IsIndexOf (lists_of submitted.now) index.now }
    requires notes { AreRead journal.now notes.now }
    requires noted { HaveNotes answers.now notes.now }
    ensures { MatchBool result (All (IsBegunJob (joined (lists_of submitted.now)) journal.now) answers.now)
        (All (IsBegunJob (joined (lists_of submitted.now)) journal.now) answers.now → ⊥) }
{
    for answer in answers {
        if !is_begun(index, notes, journal, answer, submitted) {
            return false;
        }
    }
    true
}

fn is_begun<K>(
    index: &JobIndex,
    notes: &CallNotes,
    journal: &[Entry<K>],
    answer: &Answer,
    submitted: &[Vec<PoolJob>],
) -> bool
    requires index { IsIndexOf (lists_of submitted.now) index.now }
    requires notes { AreRead journal.now notes.now }
    requires noted { IsSome (note_of notes.now answer.now.call) }
    ensures { MatchBool result (IsBegunJob (joined (lists_of submitted.now)) journal.now answer.now)
        (IsBegunJob (joined (lists_of submitted.now)) journal.now answer.now → ⊥) }
{
    let Some(job) = job_of(index, submitted, answer.ticket) else {
        return false;
    };
    let Some(note) = notes.get(&answer.call) else {
        return false;
    };
    are_begins_with(note.begins, answer.call, journal, &job.head, job.expires_in)
}

/// Whether all begins of a call are with this head and duration, by its note.
fn are_begins_with<K>(
    begins: Begins,
    call: CallId,
    journal: &[Entry<K>],
    head: &Head,
    expires_in: Option<Duration>,
) -> bool
    requires { AreBegins call journal.now begins }
    ensures { MatchBool result (AreBeginsWith call journal.now head.now expires_in)
        (AreBeginsWith call journal.now head.now expires_in → ⊥) }
{
    match begins {
        Begins::Never => true,
        Begins::Like(place) => is_begin_with(&journal[place as usize].event, head, expires_in),
        Begins::Differ => false,
    }
}
