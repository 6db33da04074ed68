//! Room for a receipt and for an entry, taken before the step.
ghost use Rattle.std.specs.Prelude.{◌≡◌, ◌≢◌, ◌≤◌, ◌+◌, ◌++◌, ◌∷◌, [], ℕ, true, length, IsSome, IfSome};
ghost use Rattle.std.specs.Prelude.{IsTrue, vec_capacity, min, ◌||◌, if◌then◌else◌};
ghost use Rattle.sequential_signer.specs.Phase.{is_begun};
ghost use Rattle.sequential_signer.specs.Transcript.{call_of};
ghost use Rattle.sign_desk.specs.LiveCount.{LiveAfter};
ghost use Rattle.signer_book.specs.OpenBegins.{is_open, cancels_call, begins_call, HasReceiptRoom};
ghost use Rattle.sequential_signer.specs.Replies.{is_cancelled};

use crate::pass::Receipt;
use sequential_signer::{Entry, Reply};
use sign_base::CallId;

/// Whether the call is open after one more receipt.
fn is_open_after<K>(found: bool, call: CallId, receipt: &Receipt<K>) -> bool
    ensures { result ≡ (if cancels_call call receipt.now then begins_call call receipt.now
        else (begins_call call receipt.now || found)) }
{
    if call != receipt.entry.event.call() {
        return found;
    }
    match receipt.entry.reply {
        Reply::Begun => true,
        Reply::Cancelled { .. } => false,
        _ => found,
    }
}

/// Whether the call was begun by a receipt, and no later one says that it was cancelled.
pub(crate) fn is_open<K>(receipts: &[Receipt<K>], call: CallId) -> bool
    ensures { result ≡ is_open call receipts.now }
{
    let mut found = false;
    for receipt in receipts {
        found = is_open_after(found, call, receipt);
    }
    found
}

/// Takes room for a receipt of this entry, and for a cancel of each begin that is open with it. Says how
/// many are open then, at most.
pub(crate) fn take_receipt_room<K>(
    receipts: &mut Vec<Receipt<K>>,
    spare: usize,
    entry: &Entry<K>,
) -> Option<usize>
    requires { HasReceiptRoom receipts.old.items spare (vec_capacity receipts.old) }
    ensures items { receipts.new.items ≡ receipts.old.items }
    ensures before { HasReceiptRoom receipts.new.items spare (vec_capacity receipts.new) }
    ensures after { IfSome result (λ after. (place : ℕ)
        → HasReceiptRoom (receipts.old.items ++ record { place = place; entry = entry.now } ∷ []) after
        (vec_capacity receipts.new)) }
    ensures cancel { IsTrue (is_cancelled entry.now.reply)
        → is_open (call_of entry.now.event) receipts.old.items ≡ true → IsSome result }
{
    let more = spare.checked_add(1)?;
    if is_begun(&entry.reply) {
        let room = more.checked_add(1)?;
        if receipts.reserve(room).is_err() {
            return None;
        }
        return Some(more);
    }
    if receipts.reserve(more).is_ok() {
        return Some(spare);
    }
    if !is_cancelled(&entry.reply) {
        return None;
    }
    if !is_open(receipts.as_slice(), entry.event.call()) {
        return None;
    }
    Some(spare - 1)
}

fn is_begun<K>(reply: &Reply<K>) -> bool
    ensures { result ≡ is_begun reply.now }
{
    matches!(reply, Reply::Begun)
}

fn is_cancelled<K>(reply: &Reply<K>) -> bool
    ensures { result ≡ is_cancelled reply.now }
{
    matches!(reply, Reply::Cancelled { .. })
}

/// Takes room for an entry with this reply, and for a cancel of each call that is live with it: in the
/// journal, and in the marks that closing needs.
pub(crate) fn take_entry_room<K>(
    journal: &mut Vec<Entry<K>>,
    owners: &mut Vec<u32>,
    live: usize,
    reply: &Reply<K>,
) -> bool
    requires { length journal.old.items + live ≤ min (vec_capacity journal.old) (vec_capacity owners.old) }
    ensures items { journal.new.items ≡ journal.old.items }
    ensures before { length journal.new.items + live ≤
        min (vec_capacity journal.new) (vec_capacity owners.new) }
    ensures after { IsTrue result → (later : ℕ) → LiveAfter reply.now live later
        → length journal.old.items + 1 + later ≤ min (vec_capacity journal.new) (vec_capacity owners.new) }
    ensures cancel { IsTrue (is_cancelled reply.now) → IsTrue result }
{
    let room = match reply {
        Reply::Begun => live.checked_add(2),
        Reply::Refused { .. } | Reply::Done { .. } | Reply::Cancelled { .. } => Some(live),
        _ => live.checked_add(1),
    };
    match room {
        Some(room) => reserve_both(journal, owners, room),
        None => false,
    }
}

/// Room for so many more entries, and for a mark of each entry, those that there are too.
fn reserve_both<K>(journal: &mut Vec<Entry<K>>, owners: &mut Vec<u32>, room: usize) -> bool
    ensures items { journal.new.items ≡ journal.old.items }
    ensures journal { vec_capacity journal.old ≤ vec_capacity journal.new }
    ensures owners { vec_capacity owners.old ≤ vec_capacity owners.new }
    ensures room { IsTrue result
        → length journal.old.items + room ≤ min (vec_capacity journal.new) (vec_capacity owners.new) }
    ensures there { length journal.old.items + room ≤ min (vec_capacity journal.old) (vec_capacity owners.old)
        → IsTrue result }
{
    let Some(all) = journal.len().checked_add(room) else {
        return false;
    };
    if journal.reserve(room).is_err() {
        return false;
    }
    owners.clear();
    owners.reserve(all).is_ok()
}
