//! The check of a presigned link.
ghost use Rattle.std.specs.Prelude.{◌≡◌, ◌+ℤ◌, ◌*◌, pos, int_le, IfOk, Ok};
ghost use Rattle.std.specs.Duration.{as_nanos};
ghost use Rattle.sign_time.specs.Calendar.{second_nanos};
ghost use Rattle.sign_request.specs.PlainTarget.{plain_target};
ghost use Rattle.sigv4_core.specs.SignedHead.{target_to_sign};
ghost use Rattle.sigv4_presign.specs.CheckedLink.{checked, checked_within, checked_at, checked_between};
ghost use Rattle.sigv4_presign.specs.LinkFields.{AreFieldsOf};
ghost use Rattle.sigv4_presign.specs.PresignedLink.{raw_query};

use crate::Checked;
use crate::link_fields::{LinkFields, read_fields};
use crate::link_parts::credential_text;
use crate::link_signature::link_signature;
use crate::link_target::query_of;
use crate::same_signature::is_same_signature;
use crate::time_span::TimeSpan;
use http_uri::Uri;
use sign_base::{Head, NoMemory, Timestamp};
use sign_request::HeaderSeeds;
use sigv4_core::{KeptKey, SigCredential, SigError, SigScope, target_to_sign};
use std::alloc::Global;
use std::time::Duration;

const NANOS_OF_SECOND: i128 = 1_000_000_000;

/// What the head's URI is as a presigned link of this credential for this scope, at this moment: the first
/// of `Checked` that holds.
///
/// The URI has to name the authority, as it does in the link: a gateway that gets a path and a `host` puts
/// them together first (RFC 9112, 3.3). Of the headers it asks only whether `http` accepts them. No
/// difference of clocks is allowed for, as `verify_within` does, and when the credential expires is not
/// asked: ask `is_valid` first. Answer a sender no more of `Signature` than that the link is none of this
/// credential's.
///
/// Who has several keys asks `read_link` whose link it is. Where the names of the headers come from outside,
/// as at a gateway, call `verify_seeded`. `round_trip` has a call of `presign` and `verify` whose answer is
/// proved.
pub fn verify(
    alloc: Global,
    head: &Head,
    credential: &SigCredential,
    scope: &SigScope,
    now: Timestamp,
) -> Result<Checked, NoMemory<()>>
    ensures { IfOk result (λ c. c ≡ checked credential.now scope.now now head.now) }
{
    verify_seeded(alloc, head, credential, scope, now, HeaderSeeds::default())
}

/// Answers what `verify` does, whatever the keys.
pub fn verify_seeded(
    alloc: Global,
    head: &Head,
    credential: &SigCredential,
    scope: &SigScope,
    now: Timestamp,
    keys: HeaderSeeds,
) -> Result<Checked, NoMemory<()>>
    ensures { IfOk result (λ c. c ≡ checked credential.now scope.now now head.now) }
{
    let mut kept = KeptKey::new();
    let found = verify_kept(alloc, head, credential, scope, now, keys, &mut kept);
    drop(kept);
    found
}

/// Answers what `verify_seeded` does, with the signing key that is kept, where it is that of the credential,
/// the scope and the link's day. Where it is not, that one is derived, and kept from then on. A link that is
/// of another key, scope or day, not good yet, or not any more, leaves what is kept.
#[tactic(auto, unfolding(crate::specs::CheckedLink::checked))]
pub fn verify_kept(
    alloc: Global,
    head: &Head,
    credential: &SigCredential,
    scope: &SigScope,
    now: Timestamp,
    keys: HeaderSeeds,
    kept: &mut KeptKey,
) -> Result<Checked, NoMemory<()>>
    ensures { IfOk result (λ c. c ≡ checked credential.now scope.now now head.now) }
{
    verify_in(
        alloc,
        head,
        credential,
        scope,
        TimeSpan::at(now),
        keys,
        kept,
    )
}

/// What `verify` answers by a clock that may be wrong by `tolerance`, either way: the link is `Early` only
/// where its date is more than that after `now`, and `Late` only where its end is at least that before. So
/// a link is good from `tolerance` before its date on, and up to `tolerance` behind its end without that
/// moment. AWS allows for 15 minutes at the date, and for nothing at the end.
///
/// With no tolerance it is `verify` (the law `a_tolerance_widens_the_time_of_a_link`).
pub fn verify_within(
    alloc: Global,
    head: &Head,
    credential: &SigCredential,
    scope: &SigScope,
    now: Timestamp,
    tolerance: Duration,
) -> Result<Checked, NoMemory<()>>
    ensures { IfOk result (λ c. c
        ≡ checked_within credential.now scope.now now (as_nanos tolerance) head.now) }
{
    verify_within_seeded(
        alloc,
        head,
        credential,
        scope,
        now,
        tolerance,
        HeaderSeeds::default(),
    )
}

/// Answers what `verify_within` does, whatever the keys.
#[tactic(auto, unfolding(crate::specs::CheckedLink::checked_within))]
pub fn verify_within_seeded(
    alloc: Global,
    head: &Head,
    credential: &SigCredential,
    scope: &SigScope,
    now: Timestamp,
    tolerance: Duration,
    keys: HeaderSeeds,
) -> Result<Checked, NoMemory<()>>
    ensures { IfOk result (λ c. c
        ≡ checked_within credential.now scope.now now (as_nanos tolerance) head.now) }
{
    let span = TimeSpan::around(now, tolerance);
    let mut kept = KeptKey::new();
    let found = verify_in(alloc, head, credential, scope, span, keys, &mut kept);
    drop(kept);
    found
}

/// What is found where it is some moment of the span.
fn verify_in(
    alloc: Global,
    head: &Head,
    credential: &SigCredential,
    scope: &SigScope,
    span: TimeSpan,
    keys: HeaderSeeds,
    kept: &mut KeptKey,
) -> Result<Checked, NoMemory<()>>
    ensures { IfOk result (λ c. c ≡ checked_at credential.now scope.now span.soonest span.latest head.now
        (target_to_sign scope.now head.now)) }
{
    match target_to_sign(alloc, head, scope, keys) {
        Ok(uri) => checked_target(alloc, head, &uri, credential, scope, span, kept),
        Err(SigError::OutOfMemory) => Err(NoMemory { back: () }),
        Err(SigError::Authority) => Ok(Checked::Authority),
        Err(SigError::Path) => Ok(Checked::Path),
        Err(_) => Ok(Checked::Head),
    }
}

/// What is found at a head that could be signed.
fn checked_target(
    alloc: Global,
    head: &Head,
    uri: &Uri,
    credential: &SigCredential,
    scope: &SigScope,
    span: TimeSpan,
    kept: &mut KeptKey,
) -> Result<Checked, NoMemory<()>>
    ensures { IfOk result (λ c. c ≡ checked_at credential.now scope.now span.soonest span.latest head.now
        (Ok (plain_target uri.now))) }
{
    match read_fields(alloc, query_of(uri))? {
        Some(link) => checked_fields(alloc, head, uri, &link, credential, scope, span, kept),
        None => Ok(Checked::Shape),
    }
}

/// What is found at a link with these fields.
fn checked_fields(
    alloc: Global,
    head: &Head,
    uri: &Uri,
    link: &LinkFields,
    credential: &SigCredential,
    scope: &SigScope,
    span: TimeSpan,
    kept: &mut KeptKey,
) -> Result<Checked, NoMemory<()>>
    requires fields { AreFieldsOf (raw_query (plain_target uri.now)) link.now }
    ensures { IfOk result (λ c. c ≡ checked_between credential.now scope.now span.soonest span.latest head.now
        (plain_target uri.now) link.now.date link.now.expires) }
{
    let signer = credential_text(alloc, credential, scope, link.date)?;
    if link.credential.as_bytes() != signer.as_slice() {
        return Ok(Checked::Credential);
    }
    if span.latest < link.date.as_nanos() {
        return Ok(Checked::Early);
    }
    if is_over(link, span) {
        return Ok(Checked::Late);
    }
    let unsigned = link.unsigned.as_slice();
    let key = kept.key_for(alloc, credential, scope, link.date)?;
    let signature = link_signature(alloc, head, uri, unsigned, key, link.date)?;
    if !is_same_signature(link.signature.as_bytes(), signature.as_slice()) {
        return Ok(Checked::Signature);
    }
    Ok(Checked::Valid)
}

/// Whether the link is not good any more. The end may lie past the last moment.
fn is_over(link: &LinkFields, span: TimeSpan) -> bool
    ensures { result ≡ int_le (link.now.date +ℤ pos (link.now.expires * second_nanos)) span.soonest }
{
    link.date.as_nanos() + i128::from(link.expires) * NANOS_OF_SECOND <= span.soonest
}
