//! What a signer keeps of a call between its polls. Its caller holds it, and hands it in at each poll.
ghost use Rattle.std.specs.Prelude.{Some, codes};
ghost use Rattle.std.specs.Fmt.{DisplaysOnOk, WritesStyledOnOk};

use credentials::{ProvideCredential, SignRequest};
use desk_driver::{BegunCall, LoadState};
use sign_base::Head;
use std::fmt;

/// The work of the service.
#[derive(Drop)]
pub(crate) enum WorkState<W> {
    /// The copy of the head on which it is to work. There was no memory yet to start it.
    Unstarted(Head),
    /// The work, and the copy of the head on which it works.
    Started(W, Head),
    /// The signed candidate, for which there was no memory.
    Signed(Head),
}

/// How far a call is. From the begin on it has the copy of its head on which the service is to work: a poll
/// copies no head.
#[derive(Drop)]
pub(crate) enum SignState<K, L, W> {
    /// It waits for its turn.
    Waiting(Head),
    /// The provider with this number was asked.
    Loading {
        candidate: Head,
        provider: u32,
        load: LoadState<K, L>,
    },
    /// The service signs with this credential.
    Signing(K, WorkState<W>),
}

/// A call that was begun and is not over. It ends by the last answer of its polls, or by
/// `Signer::cancel`; where it is dropped before, the calls behind it wait for ever.
#[derive(Drop)]
pub struct Sign<P: ProvideCredential, S: SignRequest> {
    pub(crate) begun: BegunCall<Head>,
    pub(crate) state: SignState<P::Credential, P::Load, S::Work>,
}

/// Shows neither its head nor a credential, whatever the formatter.
impl<P: ProvideCredential, S: SignRequest> fmt::Debug for Sign<P, S> {
    ghost debug_output = { λ _. Some (codes "Sign(***)") };

    fn fmt<W: fmt::Write>(&self, f: &mut fmt::Formatter<W>) -> fmt::Result
        ensures writes { DisplaysOnOk W.write_str_gives f.old result (Some (codes "Sign(***)")) f.new }
        ensures styled { WritesStyledOnOk W.write_str_gives f.old result (codes "Sign(***)") f.new }
    {
        f.write_str("Sign(***)")
    }
}
