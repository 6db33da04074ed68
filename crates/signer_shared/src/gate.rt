//! Who answers a worker's calls: providers, services and the clock.
ghost use Rattle.std.specs.Prelude.{◌≢◌, IfOk};
ghost use Rattle.signer_shared.specs.Gates.{IfAnswered};
ghost use Rattle.signer_shared.specs.declared.gate.GateLoad.TheVariants.{NotYet};

use sequential_signer::{Answer, SigningCredential, Verdict};
use sign_base::{CallId, Head, NoMemory, Timestamp};

/// What a gate says of a load.
#[derive(Debug, Drop)]
pub enum GateLoad<K> {
    /// The provider has not answered by this turn.
    NotYet,
    Answer(Answer<K>),
    OutOfMemory,
}

/// Answers a worker's calls for providers, services and the clock. Which answers it may give are
/// facts that do not change.
pub trait Gate<K: SigningCredential> {
    ghost use Rattle.signer_shared.specs.Gates.{GateMeaning};

    /// When a provider has answered, what it may answer, what the service may answer, and which
    /// moments the clock may show.
    ghost meaning: { Self → GateMeaning K };

    /// The provider's answer to the call, if there is one by this turn.
    fn load(&self, call: CallId, provider: u32, turn: u64) -> GateLoad<K>
        ensures ready { (meaning self.now).ready call provider turn → result ≢ NotYet }
        ensures gives { IfAnswered result ((meaning self.now).gives call provider) };

    /// The service's answer to the call's head with this credential.
    fn verdict(&self, call: CallId, credential: &K, head: &Head) -> Result<Verdict, NoMemory<()>>
        ensures { IfOk result (λ verdict.
            (meaning self.now).judges call credential.now head.now verdict) };

    /// What the clock shows. A worker reads it for an event behind all other answers.
    fn now(&self) -> Timestamp
        ensures { (meaning self.now).tells result };
}
