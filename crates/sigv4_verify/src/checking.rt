//! The check of a head that is signed in its headers.
ghost use Rattle.std.specs.Prelude.{◌≡◌, ◌+ℤ◌, ◌-ℤ◌, pos, IfOk, unwrap_or, []};
ghost use Rattle.std.specs.Duration.{as_nanos};
ghost use Rattle.http_uri.specs.Grammar.{query_of};
ghost use Rattle.http_uri.specs.Uri.{uri_data};
ghost use Rattle.sign_time.specs.Calendar.{IsFourDigitYear};
ghost use Rattle.sign_request.specs.PlainTarget.{PlainTarget, plain_target};
ghost use Rattle.sigv4_canonical.specs.CanonicalHeaders.{signed_headers};
ghost use Rattle.sigv4_core.specs.SignedHead.{request_to_sign, target_to_sign};
ghost use Rattle.sigv4_verify.specs.CheckedHead.{IsFound, FoundIn, found_by, is_content, says_no_other};
ghost use Rattle.sigv4_verify.specs.SignedForm.{listed};

use crate::CheckedHead;
use crate::signed_fields::{is_list_of, is_too_long, listed};
use crate::signed_form::{SignedForm, form_of, is_named};
use http_uri::Uri;
use sign_base::{Field, Fields, Head, NoMemory, Timestamp};
use sign_request::HeaderSeeds;
use sigv4_canonical::{CanonicalTexts, canonical_texts};
use sigv4_core::{Payload, SigCredential, SigError, SigScope, path_of, signature, target_to_sign};
use sigv4_presign::{TimeSpan, is_credential_of, is_same_signature};
use std::alloc::Global;
use std::time::Duration;

/// What a head is as one that is signed in its headers by this credential for this scope, with this payload:
/// the first of `CheckedHead` that holds, as AWS Signature Version 4 has it ("Create a signed AWS API
/// request").
///
/// The signature is that of the header `authorization`, of the headers that it names, and of the second in
/// `x-amz-date`, which may lie `tolerance` before or after `now`; AWS allows for 15 minutes. Other headers
/// are not looked at, so agents on the way may add some; but no header `x-amz-content-sha256` may say another
/// content than the payload, and that the payload is the content's is for the caller to see. The URI has to
/// name the authority: put the `host` before a target that has none (RFC 9112, 3.3).
///
/// When the credential expires is not asked: ask `is_valid` first. Answer a sender no more of `Signature`
/// than that the signature is none of this credential's. Where the names of the headers come from outside, as
/// at a gateway, call `verify_head_seeded`.
pub fn verify_head(
    alloc: Global,
    head: &Head,
    credential: &SigCredential,
    scope: &SigScope,
    payload: &Payload,
    now: Timestamp,
    tolerance: Duration,
) -> Result<CheckedHead, NoMemory<()>>
    ensures { IfOk result (IsFound credential.now scope.now payload.now (now -ℤ pos (as_nanos tolerance))
        (now +ℤ pos (as_nanos tolerance)) head.now) }
{
    verify_head_seeded(
        alloc,
        head,
        credential,
        scope,
        payload,
        now,
        tolerance,
        HeaderSeeds::default(),
    )
}

/// Answers what `verify_head` does, whatever the keys.
pub fn verify_head_seeded(
    alloc: Global,
    head: &Head,
    credential: &SigCredential,
    scope: &SigScope,
    payload: &Payload,
    now: Timestamp,
    tolerance: Duration,
    keys: HeaderSeeds,
) -> Result<CheckedHead, NoMemory<()>>
    ensures { IfOk result (IsFound credential.now scope.now payload.now (now -ℤ pos (as_nanos tolerance))
        (now +ℤ pos (as_nanos tolerance)) head.now) }
{
    let span = TimeSpan::around(now, tolerance);
    match target_to_sign(alloc, head, scope, keys) {
        Ok(uri) => found_in(alloc, head, &uri, credential, scope, payload, span),
        Err(SigError::OutOfMemory) => Err(NoMemory { back: () }),
        Err(SigError::Authority) => Ok(CheckedHead::Authority),
        Err(SigError::Path) => Ok(CheckedHead::Path),
        Err(_) => Ok(CheckedHead::Head),
    }
}

/// What is found at a head that could be signed.
fn found_in(
    alloc: Global,
    head: &Head,
    uri: &Uri,
    credential: &SigCredential,
    scope: &SigScope,
    payload: &Payload,
    span: TimeSpan,
) -> Result<CheckedHead, NoMemory<()>>
    ensures { IfOk result (FoundIn credential.now scope.now payload.now span.soonest span.latest head.now
        (plain_target uri.now)) }
{
    let headers = head.headers.as_slice();
    let Some(form) = form_of(alloc, headers)? else {
        return Ok(CheckedHead::Shape);
    };
    if is_too_long(form.names.as_slice()) {
        return Ok(CheckedHead::Shape);
    }
    let signed = listed(alloc, headers, form.names.as_slice())?;
    let texts = request_texts(alloc, head, uri, &signed, payload)?;
    let names = form.names.as_slice();
    if !is_list_of(signed.as_slice(), texts.names.as_slice(), names) {
        return Ok(CheckedHead::Shape);
    }
    let request = texts.request.as_slice();
    found_by(
        alloc, head, request, &form, credential, scope, payload, span,
    )
}

/// What is signed of a head with these headers.
fn request_texts(
    alloc: Global,
    head: &Head,
    uri: &Uri,
    fields: &Fields,
    payload: &Payload,
) -> Result<CanonicalTexts, NoMemory<()>>
    ensures request { IfOk result (λ texts. texts.request.items
        ≡ request_to_sign head.now (plain_target uri.now) fields.now payload.now) }
    ensures names { IfOk result (λ texts. texts.names.items ≡ signed_headers fields.now) }
{
    canonical_texts(
        alloc,
        head.method.as_slice(),
        path_of(uri).as_bytes(),
        query_of(uri).as_bytes(),
        fields,
        payload.hash_or_unsigned(),
    )
}

/// The query as it is spelled, or the empty text.
fn query_of(uri: &Uri) -> &str
    ensures { result.now ≡ unwrap_or (query_of (uri_data uri.now)) [] }
{
    uri.query().unwrap_or("")
}

/// What is found at a signature of this form, of this request.
fn found_by(
    alloc: Global,
    head: &Head,
    request: &[u8],
    form: &SignedForm,
    credential: &SigCredential,
    scope: &SigScope,
    payload: &Payload,
    span: TimeSpan,
) -> Result<CheckedHead, NoMemory<()>>
    requires { IsFourDigitYear form.now.date }
    ensures { IfOk result (λ found. (target : PlainTarget)
        → request.now ≡ request_to_sign head.now target (listed form.now.names head.now.headers) payload.now
        → found ≡ found_by credential.now scope.now payload.now span.soonest span.latest head.now target
        form.now) }
{
    if !is_credential_of(
        alloc,
        form.credential.as_slice(),
        credential,
        scope,
        form.date,
    )? {
        return Ok(CheckedHead::Credential);
    }
    if span.latest < form.date.as_nanos() {
        return Ok(CheckedHead::Early);
    }
    if form.date.as_nanos() < span.soonest {
        return Ok(CheckedHead::Late);
    }
    if !says_no_other(payload.hash_or_unsigned(), head.headers.as_slice()) {
        return Ok(CheckedHead::Content);
    }
    let signature = signature(alloc, credential, scope, form.date, request)?;
    if !is_same_signature(form.signature.as_slice(), signature.as_slice()) {
        return Ok(CheckedHead::Signature);
    }
    Ok(CheckedHead::Valid)
}

/// Whether no header says another content than this word.
fn says_no_other(word: &[u8], headers: &[Field]) -> bool
    ensures { result ≡ says_no_other word.now headers.now }
{
    headers.iter().all(|field| !is_content(field) || field.value.as_slice() == word)
}

fn is_content(field: &Field) -> bool
    ensures { result ≡ is_content field.now }
{
    is_named(field, b"x-amz-content-sha256")
}
