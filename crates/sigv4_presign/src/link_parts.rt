//! The texts that a link is made of: what its credential pair names, its pairs, and the link.
ghost use Rattle.std.specs.Prelude.{◌≡◌, ◌++◌, ◌∷◌, [], IfOk, OnOk, Ok, false, true, bytes_eq, codes, map};
ghost use Rattle.sign_time.specs.Calendar.{IsFourDigitYear};
ghost use Rattle.sign_request.specs.CanonicalText.{joined_texts};
ghost use Rattle.sign_request.specs.PlainTarget.{plain_target};
ghost use Rattle.sigv4_canonical.specs.Encoding.{percent_encoded};
ghost use Rattle.sigv4_core.specs.Signature.{derived_key};
ghost use Rattle.sigv4_core.specs.SignedHead.{is_before_year_0};
ghost use Rattle.sigv4_presign.specs.LinkPairs.{credential_text, pair_piece, signed_pairs, query_to_sign};
ghost use Rattle.sigv4_presign.specs.PresignedLink.{link_of, presigned_link};

use crate::link_signature::link_signature;
use crate::link_target::{query_of, scheme_of};
use http_uri::Uri;
use sign_base::{Head, NoMemory, Timestamp};
use sign_time::FormatMoment;
use sigv4_core::{
    SigCredential, SigScope, SigningKey, authority_of, encode, is_before_year_0, path_of,
};
use std::alloc::Global;

/// The link that has a signature for this moment, under the signing key of the credential.
#[tactic(auto, unfolding(crate::specs::PresignedLink::presigned_link))]
pub(crate) fn presigned_link(
    alloc: Global,
    head: &Head,
    uri: &Uri,
    credential: &SigCredential,
    scope: &SigScope,
    key: &SigningKey,
    expires: u32,
    now: Timestamp,
) -> Result<Vec<u8>, NoMemory<()>>
    requires year { IsFourDigitYear now }
    requires key { key.now ≡ derived_key credential.now scope.now now }
    ensures { IfOk result (λ link. link.items
        ≡ presigned_link credential.now scope.now expires now head.now (plain_target uri.now)) }
{
    let query = query_to_sign(alloc, credential, scope, expires, now, query_of(uri))?;
    let signature = link_signature(alloc, head, uri, query.as_slice(), key, now)?;
    link_with(alloc, uri, query.as_slice(), signature.as_slice())
}

/// The link of a target with this query and signature.
fn link_with(
    alloc: Global,
    uri: &Uri,
    query: &[u8],
    signature: &[u8],
) -> Result<Vec<u8>, NoMemory<()>>
    ensures { IfOk result (λ link. link.items ≡ link_of (plain_target uri.now) query.now signature.now) }
{
    let mut link = Vec::from_slice(alloc, scheme_of(uri).as_bytes())?;
    link.extend_from_slice(b"://")?;
    link.extend_from_slice(authority_of(uri).as_bytes())?;
    link.extend_from_slice(path_of(uri).as_bytes())?;
    link.push(b'?')?;
    link.extend_from_slice(query)?;
    link.extend_from_slice(b"&X-Amz-Signature=")?;
    link.extend_from_slice(signature)?;
    Ok(link)
}

/// The query that is signed: the old one, if it is not empty, and the pairs of the link.
#[tactic(auto, unfolding(crate::specs::LinkPairs::query_to_sign))]
fn query_to_sign(
    alloc: Global,
    credential: &SigCredential,
    scope: &SigScope,
    expires: u32,
    now: Timestamp,
    old: &str,
) -> Result<Vec<u8>, NoMemory<()>>
    requires { IsFourDigitYear now }
    ensures { IfOk result (λ query. query.items
        ≡ query_to_sign credential.now scope.now now expires old.now) }
{
    let mut query = Vec::from_slice(alloc, old.as_bytes())?;
    if !old.is_empty() {
        query.push(b'&')?;
    }
    push_pairs(alloc, &mut query, credential, scope, expires, now)?;
    Ok(query)
}

/// Appends the five pairs that are signed.
fn push_pairs(
    alloc: Global,
    query: &mut Vec<u8>,
    credential: &SigCredential,
    scope: &SigScope,
    expires: u32,
    now: Timestamp,
) -> Result<(), NoMemory<()>>
    requires { IsFourDigitYear now }
    ensures { OnOk result (query.new.items ≡ query.old.items
        ++ joined_texts (codes "&") (map pair_piece (signed_pairs credential.now scope.now now expires))) }
{
    let signer = credential_text(alloc, credential, scope, now)?;
    let date = now.format_iso8601(alloc)?;
    let seconds = format!(in alloc; "{expires}")?;
    push_pair(alloc, query, b"X-Amz-Algorithm=", b"AWS4-HMAC-SHA256")?;
    push_pair(alloc, query, b"&X-Amz-Credential=", signer.as_slice())?;
    push_pair(alloc, query, b"&X-Amz-Date=", date.as_bytes())?;
    push_pair(alloc, query, b"&X-Amz-Expires=", seconds.as_bytes())?;
    push_pair(alloc, query, b"&X-Amz-SignedHeaders=", b"host")?;
    Ok(())
}

/// Appends what stands before a value, and the value encoded.
fn push_pair(
    alloc: Global,
    query: &mut Vec<u8>,
    before: &[u8],
    value: &[u8],
) -> Result<(), NoMemory<()>>
    ensures { OnOk result (query.new.items
        ≡ query.old.items ++ (before.now ++ percent_encoded value.now)) }
{
    query.extend_from_slice(before)?;
    query.extend_from_slice(encode(alloc, value)?.as_slice())?;
    Ok(())
}

/// Whether a text is the access key of a credential and a scope on the day of this moment, between slashes.
/// Of a moment before the year 0 no text is.
pub fn is_credential_of(
    alloc: Global,
    text: &[u8],
    credential: &SigCredential,
    scope: &SigScope,
    date: Timestamp,
) -> Result<bool, NoMemory<()>>
    ensures same { IfOk result (λ same. IsFourDigitYear date
        → same ≡ bytes_eq text.now (credential_text credential.now scope.now date)) }
    ensures before { is_before_year_0 date ≡ true → result ≡ Ok false }
{
    if is_before_year_0(date) {
        return Ok(false);
    }
    let own = credential_text(alloc, credential, scope, date)?;
    Ok(text == own.as_slice())
}

/// The access key and the scope, between slashes.
pub(crate) fn credential_text(
    alloc: Global,
    credential: &SigCredential,
    scope: &SigScope,
    now: Timestamp,
) -> Result<Vec<u8>, NoMemory<()>>
    requires { IsFourDigitYear now }
    ensures { IfOk result (λ text. text.items ≡ credential_text credential.now scope.now now) }
{
    let mut text = Vec::from_slice(alloc, credential.access())?;
    text.push(b'/')?;
    text.extend_from_slice(now.format_date(alloc)?.as_bytes())?;
    text.push(b'/')?;
    text.extend_from_slice(scope.region())?;
    text.push(b'/')?;
    text.extend_from_slice(scope.service())?;
    text.extend_from_slice(b"/aws4_request")?;
    Ok(text)
}
