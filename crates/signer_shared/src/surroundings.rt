//! What is round a worker: the signer that it steps, and the gate that it asks. A worker knows them by this
//! trait alone, so it can do nothing that the conditions here do not allow.
ghost use Rattle.std.specs.Prelude.{◌≡◌, ◌≢◌, ◌++◌, ◌∷◌, ◌+◌, [], ⊤, ℕ, IfOk, IsTrue};
ghost use Rattle.sequential_signer.specs.declared.event.Reply.TheVariants.{OutOfMemory};
ghost use Rattle.sign_desk.specs.ReplyKinds.{is_reply_to};
ghost use Rattle.signer_shared.specs.Asking.{IsAllowedBy, IsInTime};
ghost use Rattle.signer_shared.specs.Gates.{IfAnswered};
ghost use Rattle.signer_shared.specs.declared.gate.GateLoad.TheVariants.{NotYet};

use crate::gate::{Gate, GateLoad};
use crate::turn_lock::{Journaled, TurnLock};
use sequential_signer::{Event, Reply, SigningCredential, Verdict};
use sign_base::{CallId, Head, NoMemory, Timestamp};
use signer_book::Pass;
use std::alloc::Global;
use std::marker::PhantomData;
use std::sync::Wait;

/// The signer and the gate of a worker. Each call is one more in the worker's history, and what it allows
/// holds until the next: a provider is asked after an `Ask`, turn after turn; the service is asked once after
/// a `Sign`; and the moment of an event is read when all other answers are there.
pub(crate) trait Surroundings {
    ghost use Rattle.signer_shared.specs.Asking.{Allows};
    ghost use Rattle.signer_shared.specs.Gates.{GateMeaning};

    type Credential: SigningCredential;

    /// The calls that were made so far.
    type History;

    /// What the gate may answer.
    ghost meaning: { Self → GateMeaning Self.Credential };

    /// What the last of the calls allows.
    ghost allows: { Self.History → Allows Self.Credential };

    /// Where copies of heads take their memory.
    fn alloc(&self) -> Global;

    /// The provider's answer, if there is one by this turn.
    fn load(
        &self,
        history: &mut Self::History,
        call: CallId,
        provider: u32,
        turn: u64,
    ) -> GateLoad<Self::Credential>
        requires { (allows history.old).loads provider turn }
        ensures ready { (meaning self.now).ready call provider turn → result ≢ NotYet }
        ensures gives { IfAnswered result ((meaning self.now).gives call provider) }
        ensures again { result ≡ NotYet → (allows history.new).loads provider (turn + 1) };

    /// The service's answer.
    fn verdict(
        &self,
        history: &mut Self::History,
        call: CallId,
        credential: &Self::Credential,
        head: &Head,
    ) -> Result<Verdict, NoMemory<()>>
        requires { (allows history.old).judges credential.now }
        ensures { IfOk result (λ verdict.
            (meaning self.now).judges call credential.now head.now verdict) };

    /// What the clock shows.
    fn now(&self, history: &mut Self::History) -> Timestamp
        ensures tells { (meaning self.now).tells result }
        ensures told { (allows history.new).told result };

    /// The signer's reply to an event, with its receipt in the pass.
    fn step(
        &self,
        history: &mut Self::History,
        pass: &mut Pass<Self::Credential>,
        event: &Event<Self::Credential>,
    ) -> Reply<Self::Credential>
        requires { IsInTime (allows history.old) event.now }
        ensures receipt { result ≢ OutOfMemory → (place : ℕ) × (pass.new ≡ pass.old
            ++ record { place = place; entry = record { event = event.now; reply = result } } ∷ []) }
        ensures unchanged { result ≡ OutOfMemory → pass.new ≡ pass.old }
        ensures kind { IsTrue (is_reply_to event.now result) }
        ensures allows { IsAllowedBy event.now result (allows history.new) };

    /// Sleeps until the poll would no longer find its call behind others.
    fn sleep_behind(&self, poll: &Event<Self::Credential>);
}

/// What lies under the lock of a signer, and a gate.
#[derive(Drop)]
pub(crate) struct SignerAndGate<'a, K, J, G, R> {
    pub(crate) rt: &'a R,
    pub(crate) signer: &'a TurnLock<J>,
    pub(crate) gate: &'a G,
    pub(crate) of: PhantomData<K>,
}

impl<K: SigningCredential, J: Journaled<K>, G: Gate<K>, R: Wait> Surroundings
    for SignerAndGate<'_, K, J, G, R> {
    type Credential = K;

    type History = ();

    ghost meaning = { λ around. G.meaning around.gate.now };

    ghost allows = { λ history. record {
      told = λ moment. ⊤;
      loads = λ provider turn. ⊤;
      judges = λ credential. ⊤;
      ran_out = λ event. ⊤;
    } };

    fn alloc(&self) -> Global {
        self.signer.alloc()
    }

    fn load(&self, _history: &mut (), call: CallId, provider: u32, turn: u64) -> GateLoad<K> {
        self.gate.load(call, provider, turn)
    }

    fn verdict(
        &self,
        _history: &mut (),
        call: CallId,
        credential: &K,
        head: &Head,
    ) -> Result<Verdict, NoMemory<()>> {
        self.gate.verdict(call, credential, head)
    }

    fn now(&self, _history: &mut ()) -> Timestamp {
        self.gate.now()
    }

    fn step(&self, _history: &mut (), pass: &mut Pass<K>, event: &Event<K>) -> Reply<K> {
        self.signer.step(self.rt, pass, event)
    }

    fn sleep_behind(&self, poll: &Event<K>) {
        self.signer.sleep_behind(self.rt, poll);
    }
}
