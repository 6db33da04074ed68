//! A book: a desk beside the journal of all its events and replies.
ghost use Rattle.std.specs.Prelude.{◌≡◌, ◌≢◌, ◌++◌, ◌∷◌, [], ◌<◌, true, IfOk, IfErr, IsOk};
ghost use Rattle.std.specs.Prelude.{IsSome, IsTrue, length};
ghost use Rattle.sign_base.specs.declared.call_id.CallId.{CallId};
ghost use Rattle.sequential_signer.specs.Policy.{policy_of};
ghost use Rattle.sequential_signer.specs.declared.event.Event.TheVariants.{Cancel};
ghost use Rattle.sequential_signer.specs.declared.event.Reply.TheVariants.{OutOfMemory};
ghost use Rattle.desk_parts.specs.Tables.{setup_of};
ghost use Rattle.desk_parts.specs.LiveCallView.{find_view};
ghost use Rattle.sign_desk.specs.DeskState.{Represents};
ghost use Rattle.sign_desk.specs.ReplyKinds.{is_reply_to};
ghost use Rattle.signer_book.specs.OpenBegins.{is_open};
ghost use Rattle.signer_book.specs.Settled.{IsSettled};
ghost use Rattle.signer_book.specs.Close.{IsCloseCause};

use crate::journaled_desk::JournaledDesk;
use crate::pass::Pass;
use crate::settled::{CloseRefused, Settled};
use sequential_signer::{DeadlineRule, Entry, Event, Reply, SigningCredential};
use sign_base::{EqualByValue, NoMemory};
use sign_desk::Desk;
use std::marker::Model;

/// A desk and its journal. The desk represents the journal, and there is room in it for a cancel of each
/// live call, and for what closing takes.
#[derive(Drop)]
pub struct Book<K: SigningCredential, D: DeadlineRule<Credential = K>> {
    kept: JournaledDesk<K, D>,
}

impl<K: SigningCredential, D: DeadlineRule<Credential = K>> Model for Book<K, D> {
    ghost use Rattle.signer_book.specs.BookState.{BookState};

    ghost Value = { BookState K D };

    ghost use Rattle.sequential_signer.specs.Policy.{policy_of};
    ghost use Rattle.sign_desk.specs.DeskState.{Represents};

    ghost view = { λ book. book.kept };

    ghost invariant = { λ book. Represents (policy_of K.valid K.valid_at D.deadline)
        book.kept.desk book.kept.journal };
}

impl<K: SigningCredential, D: DeadlineRule<Credential = K>> Book<K, D> {
    /// The book of a fresh desk, with an empty journal.
    pub fn new(desk: Desk<K, D>) -> Book<K, D>
        requires { Represents (policy_of K.valid K.valid_at D.deadline) desk [] }
        ensures { result ≡ record { desk = desk; journal = [] } }
    {
        Book {
            kept: JournaledDesk::new(desk),
        }
    }

    /// One event: a step of the desk, whose entry is put after the journal and its receipt after the
    /// pass. The room and the copies are taken before the step.
    ///
    /// `OutOfMemory` changes neither. It does not come for a cancel of a live call of which the pass has
    /// the begin and no cancel.
    pub fn apply(&mut self, pass: &mut Pass<K>, event: &Event<K>) -> Reply<K>
        ensures represents { Represents (policy_of K.valid K.valid_at D.deadline)
            self.new.desk self.new.journal }
        ensures journal { result ≢ OutOfMemory
            → self.new.journal ≡ self.old.journal ++ record { event = event.now; reply = result } ∷ [] }
        ensures receipt { result ≢ OutOfMemory → pass.new ≡ pass.old ++ record {
          place = length self.old.journal;
          entry = record { event = event.now; reply = result };
        } ∷ [] }
        ensures setup { setup_of self.new.desk ≡ setup_of self.old.desk }
        ensures book_unchanged { result ≡ OutOfMemory → self.new ≡ self.old }
        ensures pass_unchanged { result ≡ OutOfMemory → pass.new ≡ pass.old }
        ensures kind { IsTrue (is_reply_to event.now result) }
        ensures cancel { (call : CallId) → event.now ≡ Cancel call → IsSome (find_view self.old.desk call)
            → is_open call pass.old ≡ true → result ≢ OutOfMemory }
    {
        self.kept.apply(pass, event)
    }

    /// The entries, in order. The desk represents them.
    pub fn journal(&self) -> &[Entry<K>]
        ensures journal { result.now ≡ self.now.journal }
        ensures represents { Represents (policy_of K.valid K.valid_at D.deadline)
            self.now.desk result.now }
    {
        self.kept.journal()
    }

    /// The desk, which represents the journal.
    pub fn desk(&self) -> &Desk<K, D>
        ensures desk { result.now ≡ self.now.desk }
        ensures represents { Represents (policy_of K.valid K.valid_at D.deadline)
            result.now self.now.journal }
    {
        self.kept.desk()
    }

    /// A pass without receipts. It takes no memory, so it never fails.
    pub fn pass(&self) -> Result<Pass<K>, NoMemory<()>>
        ensures empty { IfOk result (λ pass. pass ≡ []) }
        ensures memory { IsOk result }
    {
        Ok(Pass::new(self.kept.desk().alloc()))
    }
}

impl<K, D> Book<K, D>
where
    K: SigningCredential + EqualByValue,
    D: DeadlineRule<Credential = K> + EqualByValue,
{
    /// Closes the book with the passes of its steps, which takes no memory and a time linear in the journal
    /// and the receipts. `plan` is a desk with the setup that the book's desk should have.
    ///
    /// Errors: the first of `CloseError` that holds, with everything handed back as it was.
    pub fn close(
        mut self,
        plan: Desk<K, D>,
        passes: Vec<Pass<K>>,
    ) -> Result<Settled<K, D>, CloseRefused<K, D>>
        requires { length passes.items < 4294967295 }
        ensures settled { IfOk result (λ s. IsSettled s.journal.items s.passes.items) }
        ensures desk { IfOk result (λ s. (setup_of s.desk ≡ setup_of plan)
            × Represents (policy_of K.valid K.valid_at D.deadline) s.desk s.journal.items) }
        ensures book { IfOk result (λ s. (s.desk ≡ self.desk) × (s.journal.items ≡ self.journal)) }
        ensures passes { IfOk result (λ s. s.passes.items ≡ passes.items) }
        ensures back { IfErr result
            (λ r. (r.book ≡ self) × (r.plan ≡ plan) × (r.passes.items ≡ passes.items)) }
        ensures represents { IfErr result
            (λ r. Represents (policy_of K.valid K.valid_at D.deadline) r.book.desk r.book.journal) }
        ensures why { IfErr result (λ r. IsCloseCause plan self passes.items r.why) }
    {
        if let Err(why) = self.kept.check(&plan, passes.as_slice()) {
            return Err(CloseRefused {
                book: self,
                plan,
                passes,
                why,
            });
        }
        let Book { kept } = self;
        let (desk, journal) = kept.into_parts();
        Ok(Settled {
            desk,
            journal,
            passes,
        })
    }
}
