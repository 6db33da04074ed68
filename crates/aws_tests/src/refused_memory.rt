//! The signer of sessions where memory is refused: a call that is polled on signs as if nothing had been, and
//! leaves its request as it was until then. `scripts/refused_memory --test` refuses one allocation after
//! another. `None` is one that failed outside of the calls.
ghost use Rattle.std.specs.Prelude.{◌<◌, length, IfSome};
ghost use Rattle.signer.specs.IssuedBy.{IsIssuedBy};
ghost use Rattle.signer.specs.SignerObjects.{meanings_of};

use crate::session_refresh::{CALLS, short_signer};
use crate::suite::{NOW, PLAIN};
use aws_credentials::PollClock;
use credentials::{ProvideCredential, SignRequest};
use fixtures::plain_head;
use http::request::Parts;
use sequential_signer::SigningCredential;
use sign_base::Timestamp;
use sign_request::parts_of;
use signer::{Sign, SignAnswer, SignPoll, Signer};
use std::alloc::Global;

/// The token and the signature of a request; none where it is not signed yet.
type Signed = Option<&'static str>;

/// Whether the request is signed so.
fn is_signed_so(req: &Parts, signed: Signed) -> bool {
    let Some((token, signature)) = signed.and_then(|text| text.split_once(' ')) else {
        return req.headers.get("authorization").is_none();
    };
    has(req, "x-amz-security-token", token) && has(req, "authorization", signature)
}

/// Whether the value of a header ends so.
fn has(req: &Parts, name: &str, end: &str) -> bool {
    match req.headers.get(name) {
        Some(value) => value.as_bytes().ends_with(end.as_bytes()),
        None => false,
    }
}

/// Signs a request, whose call is begun and polled once more where memory is refused. Whether it is done, and
/// the request stayed as it was before while it was not.
fn signs<P, S>(signer: &mut Signer<P, S>, req: &mut Parts, now: Timestamp, before: Signed) -> bool
where
    P: ProvideCredential,
    P::Credential: SigningCredential,
    S: SignRequest<Credential = P::Credential, Ctx = P::Ctx>,
{
    let mut done = false;
    drop(polled(signer, req, now, before, &mut done));
    done
}

/// Polls a call twice at most. Hands out the state where it is not over then, or the request was changed.
fn polled<P, S>(
    signer: &mut Signer<P, S>,
    req: &mut Parts,
    now: Timestamp,
    before: Signed,
    done: &mut bool,
) -> Option<Sign<P, S>>
where
    P: ProvideCredential,
    P::Credential: SigningCredential,
    S: SignRequest<Credential = P::Credential, Ctx = P::Ctx>,
{
    if signer.desk().handles() == 0 {
        return None;
    }
    let begun = begun(signer, req)?;
    let waiting = poll(signer, begun, req, now, done)?;
    if !is_signed_so(req, before) {
        return Some(waiting);
    }
    poll(signer, waiting, req, now, done)
}

/// A call, begun at the first or at the second try.
fn begun<P, S>(signer: &mut Signer<P, S>, req: &Parts) -> Option<Sign<P, S>>
where
    P: ProvideCredential,
    P::Credential: SigningCredential,
    S: SignRequest<Credential = P::Credential, Ctx = P::Ctx>,
    requires { 0 < length signer.old.desk.handles }
    ensures { IfSome result
        (IsIssuedBy (meanings_of P.ProvideCredential S.SignRequest.own) signer.new) }
{
    match signer.sign(0, req, None) {
        Ok(sign) => Some(sign),
        Err(_) => signer.sign(0, req, None).ok(),
    }
}

fn poll<P, S>(
    signer: &mut Signer<P, S>,
    sign: Sign<P, S>,
    req: &mut Parts,
    now: Timestamp,
    done: &mut bool,
) -> Option<Sign<P, S>>
where
    P: ProvideCredential,
    P::Credential: SigningCredential,
    S: SignRequest<Credential = P::Credential, Ctx = P::Ctx>,
    requires { IsIssuedBy (meanings_of P.ProvideCredential S.SignRequest.own) signer.old sign }
    ensures { IfSome result
        (IsIssuedBy (meanings_of P.ProvideCredential S.SignRequest.own) signer.new) }
{
    let SignPoll { answer, .. } = signer.poll(sign, req, now);
    match answer {
        SignAnswer::Pending(state) => Some(state),
        SignAnswer::OutOfMemory(state) => Some(state),
        SignAnswer::Done => {
            *done = true;
            None
        }
        SignAnswer::Refused(_) => None,
    }
}

/// Whether each call is signed by its session, as the table has it.
fn are_signed<P, S>(clock: &PollClock, signer: &mut Signer<P, S>, req: &mut Parts) -> Option<bool>
where
    P: ProvideCredential,
    P::Credential: SigningCredential,
    S: SignRequest<Credential = P::Credential, Ctx = P::Ctx>,
{
    let mut before = None;
    for (second, wanted) in &CALLS {
        let now = Timestamp::from_nanos(NOW + i128::from(*second) * 1_000_000_000)?;
        clock.set(now);
        if !signs(signer, req, now, before) || !is_signed_so(req, Some(*wanted)) {
            return Some(false);
        }
        before = Some(*wanted);
    }
    Some(true)
}

fn request(alloc: Global) -> Option<Box<Parts>> {
    let head = plain_head(alloc, "GET", PLAIN).ok()?;
    let parts = parts_of(alloc, &head);
    drop(head);
    Box::new(alloc, parts.ok()?).ok()
}

/// Whether all calls of a new signer are signed so.
fn calls_are_signed(alloc: Global) -> Option<bool> {
    let clock = PollClock::new(alloc, Timestamp::from_nanos(NOW)?).ok()?;
    let mut req = request(alloc)?;
    let mut signer = short_signer(alloc, &clock)?;
    let signed = are_signed(&clock, &mut signer, &mut req);
    drop(signer);
    signed
}

#[test]
fn a_refused_allocation_loses_no_session(rt: HostRuntime) {
    let signed = match calls_are_signed(rt.alloc()) {
        None => calls_are_signed(rt.alloc()),
        signed => signed,
    };
    assert!(rt; signed == Some(true));
}
