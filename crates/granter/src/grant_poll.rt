//! What a poll of a granter answers.
ghost use Rattle.std.specs.Fmt.{DisplaysOnOk, DisplaysStyledOnOk};
ghost use Rattle.granter.specs.DebugText.{answer_text};

use crate::grant::Grant;
use crate::refusal::GrantRefusal;
use credentials::{GrantCredential, ProvideCredential};
use std::fmt;

/// How far the call is after a poll.
#[derive(Drop)]
pub enum GrantPoll<P: ProvideCredential, G: GrantCredential> {
    /// Its provider or its service has no answer yet.
    Pending(Grant<P, G>),
    /// The credential that was granted.
    Given(P::Credential),
    /// The call is over, for this reason.
    Refused(GrantRefusal),
    /// An allocation failed. The next poll goes on from here.
    OutOfMemory(Grant<P, G>),
}

/// Shows no credential, whatever the formatter.
impl<P: ProvideCredential, G: GrantCredential> fmt::Debug for GrantPoll<P, G> {
    ghost debug_output = { answer_text };

    fn fmt<W: fmt::Write>(&self, f: &mut fmt::Formatter<W>) -> fmt::Result
        ensures writes { DisplaysOnOk W.write_str_gives f.old result (answer_text self.now) f.new }
        ensures styled { DisplaysStyledOnOk W.write_str_gives f.old result (answer_text self.now) f.new }
    {
        match self {
            GrantPoll::Pending(_) => f.write_str("Pending(***)"),
            GrantPoll::Given(_) => f.write_str("Given(***)"),
            GrantPoll::Refused(why) => f.debug_tuple("Refused").field(why).finish(),
            GrantPoll::OutOfMemory(_) => f.write_str("OutOfMemory(***)"),
        }
    }
}
