//! The URI and the headers of a head that a service signed, and how they get into the request.
ghost use Rattle.std.specs.Prelude.{◌≡◌, ◌⊎◌, None, Some, OnOk, IfOk, IfErr, IfSome, IsSome, slice_get};
ghost use Rattle.sequential_signer.specs.Policy.{policy_for};
ghost use Rattle.sign_request.specs.PlainHead.{RefusesTarget};
ghost use Rattle.sign_request.specs.Refusal.{IsOutOfMemory, RefusedAs};
ghost use Rattle.desk_driver.specs.CallAt.{IsSigning, LeavesOthers};
ghost use Rattle.signer.specs.Target.{IsTargetOf, IsHandedIn, IsKept};

use crate::drive::report_signed;
use desk_driver::BegunCall;
use http::request::Parts;
use sequential_signer::{DeadlineRule, Reply, SigningCredential};
use sign_base::{Error, Head};
use sign_desk::Desk;
use sign_request::{HeaderSeeds, commit_seeded};
use std::alloc::Global;

/// A head of `http` with the URI and the headers of this one.
///
/// `RequestInvalid` where `http` does not accept them.
pub(crate) fn target_of(alloc: Global, candidate: &Head, keys: HeaderSeeds) -> Result<Parts, Error>
    ensures ok { IfOk result (IsTargetOf candidate.now) }
    ensures accepted { OnOk result (¬ (RefusesTarget candidate.now)) }
    ensures err { IfErr result (λ e. IsOutOfMemory e ⊎ RefusedAs (RefusesTarget candidate.now) e) }
{
    let mut target = Parts::new(alloc);
    commit_seeded(alloc, &mut target, candidate, keys)?;
    Ok(target)
}

/// Hands the signed head to the desk, and puts its target into the request, or neither. The head comes
/// back where there was no memory.
pub(crate) fn commit_signed_head<K: SigningCredential, D: DeadlineRule<Credential = K>>(
    desk: &mut Desk<K, D>,
    begun: &BegunCall<Head>,
    candidate: Head,
    target: Parts,
    req: &mut Parts,
) -> Option<Head>
    requires there { IsSome (slice_get desk.old.handles begun.now.id.handle) }
    requires signing { IsSigning begun.now desk.old }
    requires target { IsTargetOf candidate target }
    ensures done { result ≡ None
        → IsHandedIn (policy_for K.SigningCredential D.DeadlineRule) begun.now.id candidate
        (record { old = desk.old; new = desk.new; before = req.old; after = req.new }) }
    ensures kept { IfSome result
        (λ head. IsKept (policy_for K.SigningCredential D.DeadlineRule) begun.now candidate head
        (record { old = desk.old; new = desk.new; before = req.old; after = req.new })) }
    ensures others { LeavesOthers begun.now.id desk.old desk.new }
{
    let (reply, back) = report_signed(desk, begun, candidate);
    match reply {
        Reply::Done { .. } => {
            drop(reply);
            drop(back);
            put_target(req, target);
            None
        }
        _ => {
            drop(reply);
            drop(target);
            Some(back)
        }
    }
}

/// Puts the URI and the headers of the target into the request.
fn put_target(req: &mut Parts, target: Parts)
    ensures { req.new ≡ record req.old { uri = target.uri; headers = target.headers } }
{
    req.uri = target.uri;
    req.headers = target.headers;
}
