//! Whether answers are what the journal says, by the notes of their calls.
ghost use Rattle.std.specs.Prelude.{◌≡◌, ◌≢◌, ◌<◌, All, IsSome, MatchBool, MatchOption, None, Some, length};
ghost use Rattle.signer_book.specs.Settled.{AreEntriesOf, IsEntryOf};
ghost use Rattle.pool_books.specs.Cleared.{joined, lists_of};
ghost use Rattle.pool_books.specs.Notes.{AreRead, HaveNotes, note_of};
ghost use Rattle.pool_books.specs.TrueAnswers.{AreGoodAnswers, IsFirstBad, IsFirstBadOf, IsGoodAnswer};
ghost use Rattle.pool_books.specs.TrueAnswers.{IsReadFrom};
ghost use Rattle.pool_books.specs.declared.answer.Outcome.TheVariants.{OutOfMemory};

use crate::answer::{Answer, Outcome};
use crate::notes::CallNotes;
use sequential_signer::{Entry, Reply};
use signer_book::{Pass, Receipt};

/// Which answer: the one at this place of this worker's.
#[derive(Clone, Copy)]
pub(crate) struct AnswerPlace {
    pub worker: u32,
    pub at: u64,
}

/// The first answer that is not true or is `NotNow`. The passes are those of the workers, in their order.
pub(crate) fn first_bad<K>(
    notes: &CallNotes,
    journal: &[Entry<K>],
    passes: &[Pass<K>],
    answers: &[Vec<Answer>],
) -> Option<AnswerPlace>
    requires count { length passes.now ≡ length answers.now }
    requires few { length passes.now < 4294967295 }
    requires entries { AreEntriesOf journal.now passes.now }
    requires notes { AreRead journal.now notes.now }
    requires noted { HaveNotes (joined (lists_of answers.now)) notes.now }
    ensures { MatchOption result (AreGoodAnswers journal.now passes.now (lists_of answers.now))
        (λ bad. IsFirstBad journal.now passes.now (lists_of answers.now) bad.worker bad.at) }
{
    for (worker, pass) in passes.iter().enumerate() {
        let list = answers[worker].as_slice();
        if let Some(at) = first_bad_of(notes, journal, pass.receipts(), list) {
            return Some(AnswerPlace {
                worker: worker as u32,
                at: at as u64,
            });
        }
    }
    None
}

fn first_bad_of<K>(
    notes: &CallNotes,
    journal: &[Entry<K>],
    pass: &[Receipt<K>],
    answers: &[Answer],
) -> Option<usize>
    requires entries { All (IsEntryOf journal.now) pass.now }
    requires notes { AreRead journal.now notes.now }
    requires noted { HaveNotes answers.now notes.now }
    ensures { MatchOption result (All (IsGoodAnswer journal.now pass.now) answers.now)
        (λ at. IsFirstBadOf journal.now pass.now answers.now at) }
{
    for (at, answer) in answers.iter().enumerate() {
        if !is_good(notes, journal, pass, answer) {
            return Some(at);
        }
    }
    None
}

/// Whether the answer is true and not `NotNow`.
fn is_good<K>(notes: &CallNotes, journal: &[Entry<K>], pass: &[Receipt<K>], answer: &Answer) -> bool
    requires entries { All (IsEntryOf journal.now) pass.now }
    requires notes { AreRead journal.now notes.now }
    requires noted { IsSome (note_of notes.now answer.now.call) }
    ensures { MatchBool result (IsGoodAnswer journal.now pass.now answer.now)
        (IsGoodAnswer journal.now pass.now answer.now → ⊥) }
{
    if answer.outcome == Outcome::NotNow {
        return false;
    }
    let Some(note) = notes.get(&answer.call) else {
        return false;
    };
    let Some(at) = answer.last else {
        return is_never_begun(note.last, answer.outcome);
    };
    let Some(receipt) = pass.get(at as usize) else {
        return false;
    };
    if !is_noted_at(note.last, receipt.place) {
        return false;
    }
    is_read_from(&receipt.entry.reply, answer.outcome)
}

/// Whether a call without a receipt has no entry, and ran out of memory.
fn is_never_begun(last: Option<u64>, outcome: Outcome) -> bool
    ensures { MatchBool result ((last ≡ None) × (outcome ≡ OutOfMemory))
        ((last ≡ None) × (outcome ≡ OutOfMemory) → ⊥) }
{
    last.is_none() && outcome == Outcome::OutOfMemory
}

/// Whether a call's last entry is at this place.
fn is_noted_at(last: Option<u64>, place: u64) -> bool
    ensures { MatchBool result (last ≡ Some place) (last ≢ Some place) }
{
    last == Some(place)
}

/// Whether the outcome is read from this reply.
fn is_read_from<K>(reply: &Reply<K>, outcome: Outcome) -> bool
    ensures { MatchBool result (IsReadFrom (Some reply.now) outcome)
        (IsReadFrom (Some reply.now) outcome → ⊥) }
{
    match reply {
        Reply::Done { .. } => outcome == Outcome::Done,
        Reply::Refused { .. } => outcome == Outcome::Refused,
        Reply::NotNow => outcome == Outcome::NotNow,
        Reply::Cancelled { .. } => {
            outcome == Outcome::GivenUp || outcome == Outcome::OutOfMemory
        }
        _ => outcome == Outcome::OutOfMemory,
    }
}
