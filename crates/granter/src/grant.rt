//! What a granter keeps of a call between its polls. Its caller holds it, and hands it in at each poll.
ghost use Rattle.std.specs.Prelude.{Some, codes};
ghost use Rattle.std.specs.Fmt.{DisplaysOnOk, WritesStyledOnOk};

use credentials::{GrantCredential, ProvideCredential};
use desk_driver::{BegunCall, LoadState};
use std::fmt;

/// The work of the granting service.
#[derive(Drop)]
pub(crate) enum WorkState<K, W> {
    /// There was no memory yet to start it.
    Unstarted,
    Started(W),
    /// The credential that it made, which the desk had no memory to give.
    Made(K),
}

/// How far a call is.
#[derive(Drop)]
pub(crate) enum CallState<K, L, W> {
    /// It has not looked at its cache yet.
    Waiting,
    /// The provider with this number was asked.
    Loading(u32, LoadState<K, L>),
    /// The service grants on the strength of this source.
    Granting(K, WorkState<K, W>),
}

/// A call that was begun and is not over. It ends by the last answer of its polls, or by
/// `Granter::cancel`.
#[derive(Drop)]
pub struct Grant<P: ProvideCredential, G: GrantCredential> {
    pub(crate) begun: BegunCall<()>,
    pub(crate) state: CallState<P::Credential, P::Load, G::Work>,
}

/// Shows no credential, whatever the formatter.
impl<P: ProvideCredential, G: GrantCredential> fmt::Debug for Grant<P, G> {
    ghost debug_output = { λ _. Some (codes "Grant(***)") };

    fn fmt<W: fmt::Write>(&self, f: &mut fmt::Formatter<W>) -> fmt::Result
        ensures writes { DisplaysOnOk W.write_str_gives f.old result (Some (codes "Grant(***)")) f.new }
        ensures styled { WritesStyledOnOk W.write_str_gives f.old result (codes "Grant(***)") f.new }
    {
        f.write_str("Grant(***)")
    }
}
