//! A book that threads share.
ghost use Rattle.std.specs.Prelude.{◌≡◌, ◌≢◌, ◌++◌, ◌∷◌, [], ◌<◌, ℕ, IfOk, IfErr, IsOk, IsTrue, length};
ghost use Rattle.sequential_signer.specs.declared.event.Reply.TheVariants.{OutOfMemory};
ghost use Rattle.sign_desk.specs.ReplyKinds.{is_reply_to};

use crate::turn_lock::TurnLock;
use sequential_signer::{DeadlineRule, Event, Reply, SigningCredential};
use sign_base::{EqualByValue, NoMemory};
use sign_desk::Desk;
use signer_book::{Book, CloseRefused, Pass, Settled};
use std::marker::Model;
use std::sync::Wait;

/// A book behind one lock, and beside it a second desk, which never changes: the plan. Contracts see the
/// plan alone.
#[derive(Drop)]
pub struct SharedSigner<K: SigningCredential, D: DeadlineRule<Credential = K>> {
    pub(crate) book: TurnLock<Book<K, D>>,
    plan: Desk<K, D>,
}

impl<K: SigningCredential, D: DeadlineRule<Credential = K>> Model for SharedSigner<K, D> {
    ghost use Rattle.sign_desk.specs.DeskState.{DeskState};

    ghost Value = { DeskState K D };

    ghost view = { λ shared. shared.plan };
}

impl<K: SigningCredential, D: DeadlineRule<Credential = K>> SharedSigner<K, D> {
    ghost use Rattle.desk_parts.specs.Tables.{setup_of};
    ghost use Rattle.sequential_signer.specs.Policy.{policy_of};
    ghost use Rattle.sign_desk.specs.DeskState.{Represents};

    /// A book with its plan, to be shared.
    pub fn new(book: Book<K, D>, plan: Desk<K, D>) -> SharedSigner<K, D>
        requires fresh { Represents (policy_of K.valid K.valid_at D.deadline) plan [] }
        requires setup { setup_of plan ≡ setup_of book.desk }
        ensures { result ≡ plan }
    {
        SharedSigner {
            book: TurnLock::new(book, plan.alloc()),
            plan,
        }
    }

    /// A pass without receipts. It takes no memory, so it never fails.
    pub fn pass(&self) -> Result<Pass<K>, NoMemory<()>>
        ensures empty { IfOk result (λ pass. pass ≡ []) }
        ensures memory { IsOk result }
    {
        Ok(Pass::new(self.plan.alloc()))
    }

    /// Makes one event of a call, and puts its receipt behind the pass. It may wait for another thread.
    ///
    /// Lend it a pass that `close` gets: an event in another pass is in the journal too, and then `close`
    /// answers `Absent`. After `OutOfMemory` nothing has happened, and the event can be made again; give the
    /// call up by an `Event::Cancel`, or it stays live, and may hold its cache.
    pub fn step<R: Wait>(&self, rt: &R, pass: &mut Pass<K>, event: &Event<K>) -> Reply<K>
        ensures receipt { result ≢ OutOfMemory → (place : ℕ) × (pass.new ≡ pass.old
            ++ record { place = place; entry = record { event = event.now; reply = result } } ∷ []) }
        ensures unchanged { result ≡ OutOfMemory → pass.new ≡ pass.old }
        ensures kind { IsTrue (is_reply_to event.now result) }
    {
        self.book.step(rt, pass, event)
    }
}

impl<K, D> SharedSigner<K, D>
where
    K: SigningCredential + EqualByValue,
    D: DeadlineRule<Credential = K> + EqualByValue,
{
    ghost use Rattle.desk_parts.specs.Tables.{setup_of};
    ghost use Rattle.sequential_signer.specs.Policy.{policy_of};
    ghost use Rattle.sign_desk.specs.DeskState.{Represents};
    ghost use Rattle.signer_book.specs.Settled.{IsSettled};
    ghost use Rattle.signer_book.specs.Close.{IsCloseCause};

    /// Takes the book out of its lock and closes it with the passes of its steps: the journal is then one
    /// legal history of a signer that serves one call at a time, and is those steps and no others. It waits
    /// for nobody, takes no memory, and a time linear in the journal and the receipts.
    ///
    /// Errors: the first of `CloseError` that holds, with book, plan and passes handed back.
    pub fn close(self, passes: Vec<Pass<K>>) -> Result<Settled<K, D>, CloseRefused<K, D>>
        requires { length passes.items < 4294967295 }
        ensures settled { IfOk result (λ s. IsSettled s.journal.items s.passes.items) }
        ensures desk { IfOk result (λ s. (setup_of s.desk ≡ setup_of self)
            × Represents (policy_of K.valid K.valid_at D.deadline) s.desk s.journal.items) }
        ensures passes { IfOk result (λ s. s.passes.items ≡ passes.items) }
        ensures back { IfErr result (λ r. (r.plan ≡ self) × (r.passes.items ≡ passes.items)
            × Represents (policy_of K.valid K.valid_at D.deadline) r.book.desk r.book.journal) }
        ensures why { IfErr result (λ r. IsCloseCause self r.book r.passes.items r.why) }
    {
        let SharedSigner { book, plan } = self;
        match book.into_inner().close(plan, passes) {
            Ok(settled) => Ok(settled),
            Err(refused) => Err(refused),
        }
    }
}
