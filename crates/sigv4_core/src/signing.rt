//! A request head with its signature in its headers.
ghost use Rattle.std.specs.Prelude.{◌≡◌, ◌⊎◌, ◌++◌, ◌∷◌, ℤ, [], Ok, Err, IfOk, IfErr, codes};
ghost use Rattle.sign_time.specs.Calendar.{IsFourDigitYear, civil_of};
ghost use Rattle.sign_time.specs.MomentText.{iso8601_text};
ghost use Rattle.sign_request.specs.PlainTarget.{plain_target};
ghost use Rattle.sigv4_core.specs.Signature.{date_of};
ghost use Rattle.sigv4_canonical.specs.CanonicalHeaders.{signed_headers};
ghost use Rattle.sigv4_core.specs.SignedHead.{field, request_to_sign, authorization, signed_with};
ghost use Rattle.sigv4_core.specs.SignedHead.{signed_head, signing_with, signing_of};

use crate::headers_to_sign::headers_to_sign;
use crate::moment::is_before_year_0;
use crate::target::{authority_of, path_of, query_of, target_to_sign};
use crate::{KeptKey, Payload, SigCredential, SigError, SigScope, SigningKey};
use http::uri::Uri;
use sign_base::{Field, Fields, Head, NoMemory, Octets, Timestamp};
use sign_request::HeaderSeeds;
use sign_time::FormatMoment;
use sigv4_canonical::{CanonicalTexts, canonical_texts};
use std::alloc::Global;

/// Room for the value of `authorization` of most requests.
const AUTHORIZATION: usize = 256;

/// The head with its signature in the header `authorization`, as AWS Signature Version 4 has it ("Create a
/// signed AWS API request"): of its method, its path, its query and each of its headers.
///
/// Before the call, put into the head what AWS is to find signed: `x-amz-security-token` with a credential
/// that has a session token, and for S3 `x-amz-content-sha256` with `Payload::hash_or_unsigned`. Headers
/// `authorization` and `x-amz-date` are replaced, and a `host` is added where none is there (RFC 9110, 7.2).
/// After it, send the head as it is, and soon, since AWS compares `x-amz-date` with its clock: a header that
/// agents on the way change is to be added after signing.
///
/// When the credential expires is not asked: ask `is_valid` first. Where the names of the headers come from
/// outside, call `sign_head_seeded`. `sigv4_tests` runs it on the requests that AWS publishes.
pub fn sign_head(
    alloc: Global,
    head: &Head,
    credential: &SigCredential,
    scope: &SigScope,
    payload: &Payload,
    now: Timestamp,
) -> Result<Head, SigError>
    ensures ok { IfOk result (λ h. signing_of credential.now scope.now payload.now now head.now ≡ Ok h) }
    ensures err { IfErr result (λ why. (why ≡ SigError.OutOfMemory)
        ⊎ (signing_of credential.now scope.now payload.now now head.now ≡ Err why)) }
{
    sign_head_seeded(
        alloc,
        head,
        credential,
        scope,
        payload,
        now,
        HeaderSeeds::default(),
    )
}

/// Answers what `sign_head` does, whatever the keys.
pub fn sign_head_seeded(
    alloc: Global,
    head: &Head,
    credential: &SigCredential,
    scope: &SigScope,
    payload: &Payload,
    now: Timestamp,
    keys: HeaderSeeds,
) -> Result<Head, SigError>
    ensures ok { IfOk result (λ h. signing_of credential.now scope.now payload.now now head.now ≡ Ok h) }
    ensures err { IfErr result (λ why. (why ≡ SigError.OutOfMemory)
        ⊎ (signing_of credential.now scope.now payload.now now head.now ≡ Err why)) }
{
    let mut kept = KeptKey::new();
    let signed = sign_head_kept(
        alloc, head, credential, scope, payload, now, keys, &mut kept,
    );
    drop(kept);
    signed
}

/// Answers what `sign_head_seeded` does, with the signing key that is kept, where it is that of the
/// credential, the scope and the day. Where it is not, that one is derived, and kept from then on.
#[tactic(auto, unfolding(crate::specs::SignedHead::signing_of, crate::specs::SignedHead::signing_with))]
pub fn sign_head_kept(
    alloc: Global,
    head: &Head,
    credential: &SigCredential,
    scope: &SigScope,
    payload: &Payload,
    now: Timestamp,
    keys: HeaderSeeds,
    kept: &mut KeptKey,
) -> Result<Head, SigError>
    ensures ok { IfOk result (λ h. signing_of credential.now scope.now payload.now now head.now ≡ Ok h) }
    ensures err { IfErr result (λ why. (why ≡ SigError.OutOfMemory)
        ⊎ (signing_of credential.now scope.now payload.now now head.now ≡ Err why)) }
{
    if is_before_year_0(now) {
        // What refuses the head comes first.
        drop(target_to_sign(alloc, head, scope, keys)?);
        return Err(SigError::Moment);
    }
    let key = kept.key_for(alloc, credential, scope, now)?;
    sign_head_with_key(alloc, head, key, payload, now, keys)
}

/// The head with its signature under a derived key, for a moment of the key's day. It is the head that
/// `sign_head` answers for the credential that the key was derived of.
#[tactic(auto, unfolding(crate::specs::SignedHead::signing_with))]
pub fn sign_head_with_key(
    alloc: Global,
    head: &Head,
    key: &SigningKey,
    payload: &Payload,
    now: Timestamp,
    keys: HeaderSeeds,
) -> Result<Head, SigError>
    requires { key.now.date ≡ date_of now }
    ensures ok { IfOk result (λ h. signing_with key.now payload.now now head.now ≡ Ok h) }
    ensures err { IfErr result (λ why. (why ≡ SigError.OutOfMemory)
        ⊎ (signing_with key.now payload.now now head.now ≡ Err why)) }
{
    let uri = target_to_sign(alloc, head, key.scope(), keys)?;
    if is_before_year_0(now) {
        drop(uri);
        return Err(SigError::Moment);
    }
    let signed = signed_head(alloc, head, &uri, key, payload, now);
    drop(uri);
    Ok(signed?)
}

/// The head at this target with its signature.
#[tactic(auto, unfolding(crate::specs::SignedHead::signed_head))]
fn signed_head(
    alloc: Global,
    head: &Head,
    uri: &Uri,
    key: &SigningKey,
    payload: &Payload,
    now: Timestamp,
) -> Result<Head, NoMemory<()>>
    requires year { IsFourDigitYear now }
    requires day { key.now.date ≡ date_of now }
    ensures { IfOk result (λ h. h ≡ signed_head key.now payload.now now head.now (plain_target uri.now)) }
{
    let date_time = now.format_iso8601(alloc)?;
    let at = date_time.as_bytes();
    let headers = headers_to_sign(alloc, authority_of(uri), at, &head.headers)?;
    Ok(Head {
        method: head.method.try_clone(alloc)?,
        uri: head.uri.try_clone(alloc)?,
        version: head.version,
        headers: signed_with(
            alloc,
            head,
            uri,
            key,
            payload,
            at,
            Fields::from_vec(headers),
        )?,
    })
}

/// These headers, and the signature of the request with them at a moment of the key's day, by its text.
#[tactic(auto, unfolding(crate::specs::SignedHead::signed_with))]
fn signed_with(
    alloc: Global,
    head: &Head,
    uri: &Uri,
    key: &SigningKey,
    payload: &Payload,
    date_time: &[u8],
    headers: Fields,
) -> Result<Fields, NoMemory<()>>
    ensures { IfOk result (λ fields. (t : ℤ) → key.now.date ≡ date_of t
        → date_time.now ≡ iso8601_text (civil_of t)
        → fields ≡ signed_with key.now payload.now t head.now (plain_target uri.now) headers) }
{
    let texts = request_texts(alloc, head, uri, &headers, payload.hash_or_unsigned())?;
    let signature = key.signature_at(alloc, date_time, texts.request.as_slice())?;
    let value = authorization(alloc, key, texts.names.as_slice(), signature.as_slice())?;
    Ok(with_authorization(alloc, headers, value)?)
}

/// What is signed of a head at this target with these headers.
fn request_texts(
    alloc: Global,
    head: &Head,
    uri: &Uri,
    headers: &Fields,
    word: &[u8],
) -> Result<CanonicalTexts, NoMemory<()>>
    ensures request { IfOk result (λ texts. texts.request.items
        ≡ request_to_sign head.now (plain_target uri.now) headers.now word.now) }
    ensures names { IfOk result (λ texts. texts.names.items ≡ signed_headers headers.now) }
{
    canonical_texts(
        alloc,
        head.method.as_slice(),
        path_of(uri).as_bytes(),
        query_of(uri).as_bytes(),
        headers,
        word,
    )
}

/// The headers, and `authorization` with this value.
fn with_authorization(
    alloc: Global,
    headers: Fields,
    value: Vec<u8>,
) -> Result<Fields, NoMemory<()>>
    ensures { IfOk result (λ fields. fields
        ≡ headers ++ field (codes "authorization") value.items ∷ []) }
{
    let mut fields = headers.into_vec();
    fields.push(Field {
        name: Octets::from_slice(alloc, b"authorization")?,
        value: Octets::from_vec(value),
    })?;
    Ok(Fields::from_vec(fields))
}

/// The value of the header `authorization` at a moment of the key's day.
#[tactic(auto, unfolding(crate::specs::SignedHead::authorization))]
fn authorization(
    alloc: Global,
    key: &SigningKey,
    names: &[u8],
    signature: &[u8],
) -> Result<Vec<u8>, NoMemory<()>>
    ensures { IfOk result (λ text. (t : ℤ) → key.now.date ≡ date_of t
        → text.items ≡ authorization key.now t names.now signature.now) }
{
    let mut text = Vec::with_capacity(alloc, AUTHORIZATION)?;
    text.extend_from_slice(b"AWS4-HMAC-SHA256 Credential=")?;
    text.extend_from_slice(key.access())?;
    text.push(b'/')?;
    text.extend_from_slice(key.credential_scope())?;
    text.extend_from_slice(b", SignedHeaders=")?;
    text.extend_from_slice(names)?;
    text.extend_from_slice(b", Signature=")?;
    text.extend_from_slice(signature)?;
    Ok(text)
}
