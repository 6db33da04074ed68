//! One call of a signer, told in words: what each poll answers, and what the request is then.
ghost use Rattle.std.specs.Prelude.{IfSome};
ghost use Rattle.signer.specs.IssuedBy.{IsIssuedBy};
ghost use Rattle.signer.specs.SignerObjects.{meanings_of};

use crate::key::at;
use crate::told::Told;
use credentials::{ProvideCredential, SignRequest};
use fixtures::head_with_headers;
use http::request::Parts;
use sequential_signer::SigningCredential;
use sign_base::Timestamp;
use sign_request::parts_of;
use signer::{Sign, SignAnswer, SignPoll, Signer};
use std::alloc::Global;

/// A request of this URI with a header that is a secret. In a box it is one value to whoever proves
/// where it is dropped, and not some fifty.
pub(crate) fn request(alloc: Global, uri: &str) -> Option<Box<Parts>> {
    let head = head_with_headers(alloc, "GET", uri, &[("pin", b"5551234")]).ok()?;
    let parts = parts_of(alloc, &head);
    drop(head);
    Box::new(alloc, parts.ok()?).ok()
}

/// What becomes of a call that is begun and polled at this second, three times at most.
pub(crate) fn told_call<P, S>(
    alloc: Global,
    signer: &mut Signer<P, S>,
    uri: &str,
    second: i64,
) -> Option<Told>
where
    P: ProvideCredential,
    P::Credential: SigningCredential,
    S: SignRequest<Credential = P::Credential, Ctx = P::Ctx>,
{
    let mut req = request(alloc, uri)?;
    let mut told = Told::new(alloc);
    drop(polled(alloc, signer, &mut req, second, &mut told));
    push_request(&mut told, &req);
    Some(told)
}

/// Tells of a request.
fn push_request(told: &mut Told, req: &Parts) {
    let (method, uri, version, headers) = (&req.method, &req.uri, req.version, &req.headers);
    let _ = write!(told.text, ", {method} {uri} {version:?} {headers:?}");
}

/// Tells of three polls. Hands out the state where the call goes on after these.
fn polled<P, S>(
    alloc: Global,
    signer: &mut Signer<P, S>,
    req: &mut Parts,
    second: i64,
    told: &mut Told,
) -> Option<Sign<P, S>>
where
    P: ProvideCredential,
    P::Credential: SigningCredential,
    S: SignRequest<Credential = P::Credential, Ctx = P::Ctx>,
{
    if signer.desk().handles() == 0 {
        return None;
    }
    let now = at(alloc, second)?;
    let begun = signer.sign(0, req, None).ok()?;
    let waiting = poll(signer, begun, req, now, told)?;
    let again = poll(signer, waiting, req, now, told)?;
    poll(signer, again, req, now, told)
}

/// Polls a call and tells its answer, and whether a debug form shows a secret then. Hands out the state
/// where the call goes on.
fn poll<P, S>(
    signer: &mut Signer<P, S>,
    sign: Sign<P, S>,
    req: &mut Parts,
    now: Timestamp,
    told: &mut Told,
) -> Option<Sign<P, S>>
where
    P: ProvideCredential,
    P::Credential: SigningCredential,
    S: SignRequest<Credential = P::Credential, Ctx = P::Ctx>,
    requires { IsIssuedBy (meanings_of P.ProvideCredential S.SignRequest.own) signer.old sign }
    ensures { IfSome result
        (IsIssuedBy (meanings_of P.ProvideCredential S.SignRequest.own) signer.new) }
{
    let SignPoll { answer, .. } = signer.poll(sign, req, now);
    told.push_secrets(&answer);
    told.push_secrets(signer);
    match answer {
        SignAnswer::Pending(state) => {
            told.push("pending, ");
            Some(state)
        }
        SignAnswer::OutOfMemory(state) => {
            told.push("out of memory, ");
            Some(state)
        }
        SignAnswer::Done => {
            told.push("done");
            None
        }
        SignAnswer::Refused(why) => {
            told.push_error(why.into_error(told.alloc(), P::Credential::NAME).ok());
            None
        }
    }
}
