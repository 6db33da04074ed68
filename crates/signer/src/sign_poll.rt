//! What a poll of a signer answers.
ghost use Rattle.std.specs.Prelude.{Some, codes};
ghost use Rattle.std.specs.Fmt.{DisplaysOnOk, DisplaysStyledOnOk, WritesStyledOnOk};
ghost use Rattle.signer.specs.DebugText.{answer_text};

use crate::refusal::Refusal;
use crate::sign::Sign;
use credentials::{ProvideCredential, SignRequest};
use sign_base::CallId;
use std::fmt;

/// How far the call is after a poll.
#[derive(Drop)]
pub enum SignAnswer<P: ProvideCredential, S: SignRequest> {
    /// It is not the call's turn, or its provider or its service has no answer yet.
    Pending(Sign<P, S>),
    /// The request is signed.
    Done,
    /// The call is over, for this reason.
    Refused(Refusal),
    /// An allocation failed. The next poll goes on from here.
    OutOfMemory(Sign<P, S>),
}

/// The answer of a poll, and the call that has its turn by it: whoever drives the calls polls that one
/// next.
#[derive(Drop)]
pub struct SignPoll<P: ProvideCredential, S: SignRequest> {
    pub answer: SignAnswer<P, S>,
    pub wake: Option<CallId>,
}

/// Shows neither a head nor a credential, whatever the formatter.
impl<P: ProvideCredential, S: SignRequest> fmt::Debug for SignAnswer<P, S> {
    ghost debug_output = { answer_text };

    fn fmt<W: fmt::Write>(&self, f: &mut fmt::Formatter<W>) -> fmt::Result
        ensures writes { DisplaysOnOk W.write_str_gives f.old result (answer_text self.now) f.new }
        ensures styled { DisplaysStyledOnOk W.write_str_gives f.old result (answer_text self.now) f.new }
    {
        match self {
            SignAnswer::Pending(_) => f.write_str("Pending(***)"),
            SignAnswer::Done => f.write_str("Done"),
            SignAnswer::Refused(why) => f.debug_tuple("Refused").field(why).finish(),
            SignAnswer::OutOfMemory(_) => f.write_str("OutOfMemory(***)"),
        }
    }
}

/// Shows neither a head nor a credential, whatever the formatter.
impl<P: ProvideCredential, S: SignRequest> fmt::Debug for SignPoll<P, S> {
    ghost debug_output = { λ _. Some (codes "SignPoll(***)") };

    fn fmt<W: fmt::Write>(&self, f: &mut fmt::Formatter<W>) -> fmt::Result
        ensures writes { DisplaysOnOk W.write_str_gives f.old result (Some (codes "SignPoll(***)")) f.new }
        ensures styled { WritesStyledOnOk W.write_str_gives f.old result (codes "SignPoll(***)") f.new }
    {
        f.write_str("SignPoll(***)")
    }
}
