//! A request signed in one call, by objects that answer at once.
ghost use Rattle.std.specs.Prelude.{◌≡◌, ◌⊎◌, ◌<◌, length, OnOk, OnErr, IfOk, IfErr, IfSome};
ghost use Rattle.sequential_signer.specs.Policy.{policy_for};
ghost use Rattle.sign_request.specs.Refusal.{IsOutOfMemory};
ghost use Rattle.signer.specs.IssuedBy.{IsIssuedBy};
ghost use Rattle.signer.specs.PollEvents.{state_back};
ghost use Rattle.signer.specs.RefusalError.{error_of};
ghost use Rattle.signer.specs.SignerCalls.{RefusesToBegin};
ghost use Rattle.signer.specs.SignerObjects.{meanings_of};
ghost use Rattle.aws_service.specs.OneCall.{end_of, IsGivenUp, IsOneCall, IsUnsigned};

use credentials::{ProvideCredential, SignRequest};
use http::request::Parts;
use sequential_signer::SigningCredential;
use sign_base::{Error, Timestamp};
use signer::{Refusal, SignAnswer, SignPoll, Signer};
use std::alloc::Global;
use std::time::Duration;

/// How a call ended that was polled once.
#[derive(Drop)]
pub(crate) enum CallEnd {
    Done,
    Refused(Refusal),
    Pending,
    OutOfMemory,
}

/// Begins a call under this handle and polls it once: `Signer::sign` and `Signer::poll` in one, for a signer
/// whose providers and services answer at once, and which has no other call that is not over. Where the clock
/// of its context is a `PollClock`, set that to `now` before.
///
/// Errors: what `sign` refuses, and the cause of a refused call as `Refusal::into_error` has it. `Unexpected`
/// where an object did not answer, and `OutOfMemory` where an allocation failed: the call is given up then.
/// An error leaves the request as it was.
pub fn sign_now<P, S>(
    alloc: Global,
    signer: &mut Signer<P, S>,
    handle: u32,
    req: &mut Parts,
    expires_in: Option<Duration>,
    now: Timestamp,
) -> Result<(), Error>
where
    P: ProvideCredential,
    P::Credential: SigningCredential,
    S: SignRequest<Credential = P::Credential, Ctx = P::Ctx>,
    requires { handle < length signer.old.desk.handles }
    ensures ok { OnOk result (IsOneCall (policy_for P.Credential.SigningCredential S.DeadlineRule)
        P.Credential.clones_freely (meanings_of P.ProvideCredential S.SignRequest.own) handle expires_in now
        (record { old = signer.old; new = signer.new; before = req.old; after = req.new }) CallEnd.Done) }
    ensures err { IfErr result (IsUnsigned (policy_for P.Credential.SigningCredential S.DeadlineRule)
        P.Credential.clones_freely (meanings_of P.ProvideCredential S.SignRequest.own) handle expires_in now
        (record { old = signer.old; new = signer.new; before = req.old; after = req.new })) }
    ensures unchanged { OnErr result (req.new ≡ req.old) }
{
    match call_once(signer, handle, req, expires_in, now)? {
        CallEnd::Done => Ok(()),
        CallEnd::Refused(why) => Err(error_of(alloc, why, P::Credential::NAME)),
        CallEnd::Pending => Err(Error::unexpected(alloc, "provider or service did not answer")?),
        CallEnd::OutOfMemory => Err(Error::out_of_memory()),
    }
}

/// Begins a call, polls it once, and gives it up where it is not over.
fn call_once<P, S>(
    signer: &mut Signer<P, S>,
    handle: u32,
    req: &mut Parts,
    expires_in: Option<Duration>,
    now: Timestamp,
) -> Result<CallEnd, Error>
where
    P: ProvideCredential,
    P::Credential: SigningCredential,
    S: SignRequest<Credential = P::Credential, Ctx = P::Ctx>,
    requires { handle < length signer.old.desk.handles }
    ensures ok { IfOk result (IsOneCall (policy_for P.Credential.SigningCredential S.DeadlineRule)
        P.Credential.clones_freely (meanings_of P.ProvideCredential S.SignRequest.own) handle expires_in now
        (record { old = signer.old; new = signer.new; before = req.old; after = req.new })) }
    ensures err { IfErr result (RefusesToBegin req.old signer.old.begun) }
    ensures unchanged { OnErr result ((signer.new ≡ signer.old) × (req.new ≡ req.old)) }
{
    let sign = signer.sign(handle, req, expires_in)?;
    let SignPoll { answer, .. } = signer.poll(sign, req, now);
    Ok(end_call(signer, answer))
}

/// How the call of a poll's answer ended, which is given up where it is not over.
fn end_call<P, S>(signer: &mut Signer<P, S>, answer: SignAnswer<P, S>) -> CallEnd
where
    P: ProvideCredential,
    P::Credential: SigningCredential,
    S: SignRequest<Credential = P::Credential, Ctx = P::Ctx>,
    requires { IfSome (state_back answer)
        (IsIssuedBy (meanings_of P.ProvideCredential S.SignRequest.own) signer.old) }
    ensures end { result ≡ end_of answer }
    ensures given_up { IsGivenUp (policy_for P.Credential.SigningCredential S.DeadlineRule)
        P.Credential.clones_freely (meanings_of P.ProvideCredential S.SignRequest.own)
        answer signer.old signer.new }
{
    match answer {
        SignAnswer::Done => CallEnd::Done,
        SignAnswer::Refused(why) => CallEnd::Refused(why),
        SignAnswer::Pending(sign) => {
            signer.cancel(sign);
            CallEnd::Pending
        }
        SignAnswer::OutOfMemory(sign) => {
            signer.cancel(sign);
            CallEnd::OutOfMemory
        }
    }
}

/// The refusal as an error, or that there is no memory for it.
fn error_of(alloc: Global, why: Refusal, name: &str) -> Error
    ensures { (result ≡ error_of name.now why) ⊎ IsOutOfMemory result }
{
    match why.into_error(alloc, name) {
        Ok(error) => error,
        Err(_) => Error::out_of_memory(),
    }
}
