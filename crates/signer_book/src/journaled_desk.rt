//! A desk, and the journal of its events and replies since some moment: what a book and a volume have in
//! common.
ghost use Rattle.std.specs.Prelude.{◌≡◌, ◌≢◌, ◌++◌, ◌∷◌, [], ◌<◌, true, List, IfSome, MatchResult};
ghost use Rattle.std.specs.Prelude.{IsSome, IsTrue, length};
ghost use Rattle.sign_base.specs.declared.call_id.CallId.{CallId};
ghost use Rattle.sequential_signer.specs.Policy.{policy_of};
ghost use Rattle.sequential_signer.specs.Transcript.{committed_entries};
ghost use Rattle.sequential_signer.specs.ExpectedReply.{expected_reply};
ghost use Rattle.sequential_signer.specs.declared.event.Entry.{Entry};
ghost use Rattle.sequential_signer.specs.declared.event.Event.TheVariants.{Cancel};
ghost use Rattle.sequential_signer.specs.declared.event.Reply.TheVariants.{OutOfMemory};
ghost use Rattle.desk_parts.specs.Tables.{setup_of};
ghost use Rattle.desk_parts.specs.LiveCallView.{find_view};
ghost use Rattle.sign_desk.specs.DeskState.{Represents};
ghost use Rattle.sign_desk.specs.Idle.{RepresentsSome};
ghost use Rattle.sign_desk.specs.Cause.{cause_of, IsCaused};
ghost use Rattle.sign_desk.specs.ReplyKinds.{is_reply_to};
ghost use Rattle.signer_book.specs.OpenBegins.{is_open};
ghost use Rattle.signer_book.specs.Settled.{IsSettled};
ghost use Rattle.signer_book.specs.Close.{IsCloseCause};

use crate::check::check_close;
use crate::pass::{Pass, Receipt};
use crate::room::{take_entry_room, take_receipt_room};
use crate::settled::CloseError;
use sequential_signer::{DeadlineRule, Entry, Event, Reply, SigningCredential};
use sign_base::EqualByValue;
use sign_desk::Desk;
use std::marker::Model;
use std::mem;

/// A desk and its journal. The desk represents some past with the journal behind it, and there is room in the
/// journal for a cancel of each live call, and for what closing takes: `owners` has a mark for each entry
/// then.
#[derive(Drop)]
pub struct JournaledDesk<K: SigningCredential, D: DeadlineRule<Credential = K>> {
    desk: Desk<K, D>,
    journal: Vec<Entry<K>>,
    owners: Vec<u32>,
}

impl<K: SigningCredential, D: DeadlineRule<Credential = K>> Model for JournaledDesk<K, D> {
    ghost use Rattle.signer_book.specs.BookState.{BookState};

    ghost Value = { BookState K D };

    ghost use Rattle.std.specs.Prelude.{vec_capacity, min};
    ghost use Rattle.sequential_signer.specs.Policy.{policy_of};
    ghost use Rattle.signer_book.specs.BookState.{IsJournaled};

    ghost view = { λ kept. record { desk = kept.desk; journal = kept.journal.items } };

    ghost invariant = { λ kept. IsJournaled (policy_of K.valid K.valid_at D.deadline)
        kept.desk kept.journal.items (min (vec_capacity kept.journal) (vec_capacity kept.owners)) };
}

impl<K: SigningCredential, D: DeadlineRule<Credential = K>> JournaledDesk<K, D> {
    /// A desk without live calls, and an empty journal.
    pub fn new(desk: Desk<K, D>) -> JournaledDesk<K, D>
        requires past { RepresentsSome (policy_of K.valid K.valid_at D.deadline) desk }
        requires idle { length desk.calls ≡ 0 }
        ensures { result ≡ record { desk = desk; journal = [] } }
    {
        let journal = Vec::new(desk.alloc());
        let owners = Vec::new(desk.alloc());
        JournaledDesk {
            desk,
            journal,
            owners,
        }
    }

    /// One event: a step of the desk, whose entry is put after the journal and its receipt after the
    /// pass. The room and the copies are taken before the step.
    ///
    /// `OutOfMemory` changes neither. It does not come for a cancel of a live call of which the pass has
    /// the begin and no cancel.
    pub fn apply(&mut self, pass: &mut Pass<K>, event: &Event<K>) -> Reply<K>
        ensures follows { (before : List (Entry K))
            → Represents (policy_of K.valid K.valid_at D.deadline)
            self.old.desk (before ++ self.old.journal)
            → Represents (policy_of K.valid K.valid_at D.deadline)
            self.new.desk (before ++ self.new.journal) }
        ensures journal { result ≢ OutOfMemory
            → self.new.journal ≡ self.old.journal ++ record { event = event.now; reply = result } ∷ [] }
        ensures receipt { result ≢ OutOfMemory → pass.new ≡ pass.old ++ record {
          place = length self.old.journal;
          entry = record { event = event.now; reply = result };
        } ∷ [] }
        ensures setup { setup_of self.new.desk ≡ setup_of self.old.desk }
        ensures book_unchanged { result ≡ OutOfMemory → self.new ≡ self.old }
        ensures pass_unchanged { result ≡ OutOfMemory → pass.new ≡ pass.old }
        ensures kind { IsTrue (is_reply_to event.now result) }
        ensures cancel { (call : CallId) → event.now ≡ Cancel call → IsSome (find_view self.old.desk call)
            → is_open call pass.old ≡ true → result ≢ OutOfMemory }
    {
        let Some(kept) = preview_entry(&self.desk, event) else {
            return Reply::OutOfMemory;
        };
        let Some(given) = preview_entry(&self.desk, event) else {
            drop(kept);
            return Reply::OutOfMemory;
        };
        let live = self.desk.live();
        if !take_entry_room(&mut self.journal, &mut self.owners, live, &kept.reply) {
            drop(kept);
            drop(given);
            return Reply::OutOfMemory;
        }
        let spare = pass.spare;
        let Some(spare) = take_receipt_room(&mut pass.receipts, spare, &given) else {
            drop(kept);
            drop(given);
            return Reply::OutOfMemory;
        };
        let reply = self.desk.step(event);
        if reply.is_out_of_memory() {
            drop(kept);
            drop(given);
            drop(reply);
            return Reply::OutOfMemory;
        }
        let place = self.journal.len() as u64;
        self.journal.push_reserved(kept);
        pass.receipts.push_reserved(Receipt {
            place,
            entry: given,
        });
        pass.spare = spare;
        reply
    }

    /// The entries, in order.
    pub fn journal(&self) -> &[Entry<K>]
        ensures { result.now ≡ self.now.journal }
    {
        self.journal.as_slice()
    }

    /// The desk.
    pub fn desk(&self) -> &Desk<K, D>
        ensures { result.now ≡ self.now.desk }
    {
        &self.desk
    }

    /// Takes the journal, and begins an empty one.
    pub fn take_journal(&mut self) -> Vec<Entry<K>>
        requires { length self.old.desk.calls ≡ 0 }
        ensures journal { result.items ≡ self.old.journal }
        ensures desk { self.new ≡ record { desk = self.old.desk; journal = [] } }
    {
        let next = Vec::new(self.desk.alloc());
        mem::replace(&mut self.journal, next)
    }

    /// The desk and the journal.
    pub fn into_parts(self) -> (Desk<K, D>, Vec<Entry<K>>)
        ensures desk { result.0 ≡ self.desk }
        ensures journal { result.1.items ≡ self.journal }
    {
        let JournaledDesk {
            desk,
            journal,
            owners,
        } = self;
        drop(owners);
        (desk, journal)
    }
}

impl<K, D> JournaledDesk<K, D>
where
    K: SigningCredential + EqualByValue,
    D: DeadlineRule<Credential = K> + EqualByValue,
{
    /// Whether the journal is closed by these passes, or the first cause for which it is not.
    pub fn check(&mut self, plan: &Desk<K, D>, passes: &[Pass<K>]) -> Result<(), CloseError>
        requires { length passes.now < 4294967295 }
        ensures why { MatchResult result
            (λ _. (setup_of self.old.desk ≡ setup_of plan.now) × IsSettled self.old.journal passes.now)
            (λ why. IsCloseCause plan.now self.old passes.now why) }
        ensures unchanged { self.new ≡ self.old }
    {
        check_close(
            &self.desk,
            self.journal.as_slice(),
            &mut self.owners,
            plan,
            passes,
        )
    }
}

/// The entry that a step at this event would add, unless an allocation fails.
fn preview_entry<K: SigningCredential, D: DeadlineRule<Credential = K>>(
    desk: &Desk<K, D>,
    event: &Event<K>,
) -> Option<Entry<K>>
    ensures event { IfSome result (λ entry. entry.event ≡ event.now) }
    ensures expected { IfSome result (λ entry. (entries : List (Entry K))
        → Represents (policy_of K.valid K.valid_at D.deadline) desk.now entries
        → entry.reply ≡ expected_reply (policy_of K.valid K.valid_at D.deadline) (setup_of desk.now)
        (committed_entries entries) event.now) }
    ensures kind { IfSome result (λ entry. IsTrue (is_reply_to event.now entry.reply)) }
    ensures causes { IfSome result (λ entry.
        IsCaused (cause_of (policy_of K.valid K.valid_at D.deadline) desk.now event.now) entry.reply) }
    ensures cancel { (entries : List (Entry K))
        → Represents (policy_of K.valid K.valid_at D.deadline) desk.now entries
        → (call : CallId) → event.now ≡ Cancel call → IsSome result }
{
    let reply = desk.preview(event);
    if reply.is_out_of_memory() {
        return None;
    }
    let event = event.try_clone(desk.alloc()).ok()?;
    Some(Entry { event, reply })
}
