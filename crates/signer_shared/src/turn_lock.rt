//! The one lock of a signer, under which lies a book or a volume, and where calls sleep until it is their turn.
ghost use Rattle.std.specs.Prelude.{◌≡◌, ◌≢◌, ◌++◌, ◌∷◌, [], ℕ, IsTrue};
ghost use Rattle.sequential_signer.specs.declared.event.Reply.TheVariants.{OutOfMemory};
ghost use Rattle.sign_desk.specs.ReplyKinds.{is_reply_to};

use sequential_signer::{DeadlineRule, Event, Reply, SigningCredential};
use sign_desk::{Desk, Stage};
use signer_book::{Book, Pass, Volume};
use std::alloc::Global;
use std::sync::{Condvar, Mutex, Wait};

/// What lies under the lock of a signer: a book, or a volume.
pub(crate) trait Journaled<K: SigningCredential> {
    /// One event, whose receipt is put behind the pass.
    fn take(&mut self, pass: &mut Pass<K>, event: &Event<K>) -> Reply<K>
        ensures receipt { result ≢ OutOfMemory → (place : ℕ) × (pass.new ≡ pass.old
            ++ record { place = place; entry = record { event = event.now; reply = result } } ∷ []) }
        ensures unchanged { result ≡ OutOfMemory → pass.new ≡ pass.old }
        ensures kind { IsTrue (is_reply_to event.now result) };

    /// Whether the poll would find its call behind others.
    fn is_behind(&self, poll: &Event<K>) -> bool;
}

impl<K: SigningCredential, D: DeadlineRule<Credential = K>> Journaled<K> for Book<K, D> {
    fn take(&mut self, pass: &mut Pass<K>, event: &Event<K>) -> Reply<K> {
        self.apply(pass, event)
    }

    fn is_behind(&self, poll: &Event<K>) -> bool {
        is_behind(self.desk(), poll)
    }
}

impl<K: SigningCredential, D: DeadlineRule<Credential = K>> Journaled<K> for Volume<K, D> {
    fn take(&mut self, pass: &mut Pass<K>, event: &Event<K>) -> Reply<K> {
        self.apply(pass, event)
    }

    fn is_behind(&self, poll: &Event<K>) -> bool {
        is_behind(self.desk(), poll)
    }
}

/// Whether the poll would be `Pending` at the desk, since its call is behind others. One whose own answer is
/// awaited is not: another thread then has the call, and nobody wakes this one.
fn is_behind<K: SigningCredential, D: DeadlineRule<Credential = K>>(
    desk: &Desk<K, D>,
    poll: &Event<K>,
) -> bool {
    let Event::Poll { call, .. } = poll else {
        return false;
    };
    match desk.stage_of(*call) {
        Some(Stage::Queued) => matches!(desk.preview(poll), Reply::Pending),
        _ => false,
    }
}

/// A journal that is stepped by one thread at a time.
#[derive(Drop)]
pub(crate) struct TurnLock<J> {
    kept: Mutex<J>,
    turned: Condvar,
    alloc: Global,
}

impl<J> TurnLock<J> {
    pub(crate) fn new(kept: J, alloc: Global) -> TurnLock<J> {
        TurnLock {
            kept: Mutex::new(kept),
            turned: Condvar::new(),
            alloc,
        }
    }

    /// Where workers take the memory of their copies.
    pub(crate) fn alloc(&self) -> Global {
        self.alloc
    }

    pub(crate) fn into_inner(self) -> J {
        let TurnLock { kept, .. } = self;
        kept.into_inner()
    }

    /// Makes one event of a call, and wakes the sleepers where it passes a turn on. It may wait for another
    /// thread.
    pub(crate) fn step<K: SigningCredential, R: Wait>(
        &self,
        rt: &R,
        pass: &mut Pass<K>,
        event: &Event<K>,
    ) -> Reply<K>
    where
        J: Journaled<K>,
        ensures receipt { result ≢ OutOfMemory → (place : ℕ) × (pass.new ≡ pass.old
            ++ record { place = place; entry = record { event = event.now; reply = result } } ∷ []) }
        ensures unchanged { result ≡ OutOfMemory → pass.new ≡ pass.old }
        ensures kind { IsTrue (is_reply_to event.now result) }
    {
        let reply = self.step_locked(rt, pass, event);
        if may_pass_a_turn_on(&reply) {
            self.turned.notify_all();
        }
        reply
    }

    fn step_locked<K: SigningCredential, R: Wait>(
        &self,
        rt: &R,
        pass: &mut Pass<K>,
        event: &Event<K>,
    ) -> Reply<K>
    where
        J: Journaled<K>,
        ensures receipt { result ≢ OutOfMemory → (place : ℕ) × (pass.new ≡ pass.old
            ++ record { place = place; entry = record { event = event.now; reply = result } } ∷ []) }
        ensures unchanged { result ≡ OutOfMemory → pass.new ≡ pass.old }
        ensures kind { IsTrue (is_reply_to event.now result) }
    {
        let mut kept = self.kept.lock(rt);
        let reply = kept.take(pass, event);
        reply
    }

    /// Sleeps while the poll would find its call behind others. What they wait for is looked up under the
    /// lock under which they begin to sleep, so no wake is lost.
    pub(crate) fn sleep_behind<K: SigningCredential, R: Wait>(&self, rt: &R, poll: &Event<K>)
    where
        J: Journaled<K>,
    {
        let kept = self
            .turned
            .wait_while(rt, self.kept.lock(rt), |kept| kept.is_behind(poll));
        drop(kept);
    }
}

/// Whether a call that sleeps may be at its turn by this reply, or over.
fn may_pass_a_turn_on<K>(reply: &Reply<K>) -> bool {
    match reply {
        Reply::Sign { wake, .. } | Reply::Refused { wake, .. } => wake.is_some(),
        Reply::Cancelled { .. } => true,
        _ => false,
    }
}
