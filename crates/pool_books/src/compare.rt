//! Comparing the books of a pool whose signer is closed.
ghost use Rattle.std.specs.Prelude.{◌≡◌, ◌<◌, length, MatchOption};
ghost use Rattle.signer_book.specs.Settled.{IsSettled};
ghost use Rattle.pool_books.specs.Cleared.{joined, lists_of};
ghost use Rattle.pool_books.specs.Finished.{HasGoodAnswers, IsClearedPool, IsFinishCause};
ghost use Rattle.pool_books.specs.Index.{HaveOwnTickets, IsIndexOf};
ghost use Rattle.pool_books.specs.Notes.{AreBlank, HaveNotes};

use crate::cleared::is_cleared;
use crate::finished::{FinishCause, Finished};
use crate::index::JobIndex;
use crate::notes::{CallNotes, note_journal};
use crate::true_answers::first_bad;
use sequential_signer::{DeadlineRule, SigningCredential};

/// Why the books do not balance, if they do not. `index` is that of the submitted jobs, or `None` where two
/// have one ticket; `notes` are blank.
pub fn finish_cause<K: SigningCredential, D: DeadlineRule<Credential = K>>(
    finished: &Finished<K, D>,
    index: Option<JobIndex>,
    mut notes: CallNotes,
) -> Option<FinishCause>
    requires settled { IsSettled finished.now.settled.journal.items finished.now.settled.passes.items }
    requires few { length finished.now.settled.passes.items < 4294967295 }
    requires count { length finished.now.settled.passes.items ≡ length finished.now.answers.items }
    requires index { MatchOption index (HaveOwnTickets (joined (lists_of finished.now.submitted.items)) → ⊥)
        (IsIndexOf (lists_of finished.now.submitted.items)) }
    requires notes { AreBlank notes × HaveNotes (joined (lists_of finished.now.answers.items)) notes }
    ensures { MatchOption result (IsClearedPool finished.now × HasGoodAnswers finished.now)
        (IsFinishCause finished.now) }
{
    let journal = finished.settled.journal.as_slice();
    let answers = finished.answers.as_slice();
    let left = finished.left.as_slice();
    let submitted = finished.submitted.as_slice();
    note_journal(&mut notes, journal);
    let Some(index) = index else {
        return Some(FinishCause::Jobs);
    };
    if !is_cleared(index, &notes, journal, answers, left, submitted) {
        return Some(FinishCause::Jobs);
    }
    let bad = first_bad(&notes, journal, finished.settled.passes.as_slice(), answers)?;
    Some(FinishCause::Untrue {
        worker: bad.worker,
        at: bad.at,
    })
}
