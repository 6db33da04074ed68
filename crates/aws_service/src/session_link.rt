//! A presigned link with the token of a session.
ghost use Rattle.std.specs.Prelude.{◌≡◌, ◌⊎◌, ◌++◌, ◌∷◌, [], ◌/◌, min, if◌then◌else◌, Ok, Err, IfOk, IfErr};
ghost use Rattle.std.specs.Prelude.{OnOk, codes, option_map, bytes_eq};
ghost use Rattle.std.specs.Duration.{as_nanos};
ghost use Rattle.std.specs.List.{list_any, slice_split, before_first, after_first};
ghost use Rattle.percent_encoding.specs.Percent.{percent_decode};
ghost use Rattle.sign_request.specs.Query.{is_ampersand, is_equals_sign};
ghost use Rattle.sigv4_canonical.specs.Encoding.{percent_encoded};
ghost use Rattle.aws_service.specs.SessionLink.{has_token, is_token_piece, uri_with_token, token_key};
ghost use Rattle.aws_service.specs.SessionLink.{with_pair, link_signing};
ghost use Rattle.aws_service.specs.UriText.{is_hash, is_question_mark, without_fragment};

use crate::cut::{after_first, before_first};
use crate::uri_text::{has_other_host, has_plus};
use crate::{AwsError, AwsService};
use aws_credentials::SessionCredential;
use percent_encoding::percent_decode;
use sign_base::{Head, NoMemory, Octets, Timestamp};
use sigv4_core::encode;
use sigv4_presign::presign_seeded;
use std::alloc::{AllocError, Global};
use std::time::Duration;

impl<X> AwsService<X> {
    /// The head with a presigned link as its URI, which is good for these seconds, as `presign` of
    /// `sigv4_presign` answers it for the head whose query has the credential's token as its last pair. A
    /// fragment goes, where there is a token.
    ///
    /// `Plus` where the query has a `+`, `Token` where it has a session's token already; else what `presign`
    /// refuses, and `Host` where agents send another host for the link than it was signed for. When the
    /// credential expires is not asked: ask `is_valid_at` for the link's end first.
    #[tactic(auto, unfolding(crate::specs::SessionLink::link_signing))]
    pub fn presign(
        &self,
        alloc: Global,
        head: &Head,
        session: &SessionCredential,
        expires: u32,
        now: Timestamp,
    ) -> Result<Head, AwsError>
        ensures ok { IfOk result (λ h. link_signing self.now session.now expires now head.now ≡ Ok h) }
        ensures err { IfErr result (λ why. (why ≡ AwsError.OutOfMemory)
            ⊎ (link_signing self.now session.now expires now head.now ≡ Err why)) }
    {
        if has_plus(head.uri.as_slice()) {
            return Err(AwsError::Plus);
        }
        if has_token(alloc, head.uri.as_slice())? {
            return Err(AwsError::Token);
        }
        let ready = head_with_token(alloc, head, session.token())?;
        let link = presign_seeded(
            alloc,
            &ready,
            session.key(),
            &self.scope,
            expires,
            now,
            self.keys,
        )?;
        if has_other_host(link.uri.as_slice()) {
            return Err(AwsError::Host);
        }
        Ok(link)
    }

    /// The same for the whole seconds of a duration.
    pub(crate) fn presign_for(
        &self,
        alloc: Global,
        head: &Head,
        session: &SessionCredential,
        duration: Duration,
        now: Timestamp,
    ) -> Result<Head, AwsError>
        ensures ok { IfOk result (λ h.
            link_signing self.now session.now (as_nanos duration / 1000000000) now head.now ≡ Ok h) }
        ensures err { IfErr result (λ why. (why ≡ AwsError.OutOfMemory)
            ⊎ (link_signing self.now session.now (as_nanos duration / 1000000000) now head.now ≡ Err why)) }
    {
        self.presign(alloc, head, session, link_seconds(duration), now)
    }
}

/// The whole seconds of a duration, or as many as there may be: more than a link may be good for.
fn link_seconds(duration: Duration) -> u32
    ensures { result ≡ min (as_nanos duration / 1000000000) 4294967295 }
{
    u32::try_from(duration.as_secs()).unwrap_or(u32::MAX)
}

/// Whether the query of a URI has a token.
fn has_token(alloc: Global, uri: &[u8]) -> Result<bool, NoMemory<()>>
    ensures { IfOk result (λ has. has ≡ has_token uri.now) }
{
    let uri = before_first(uri, b'#');
    Ok(has_token_piece(alloc, after_first(uri, b'?'))?)
}

fn has_token_piece(alloc: Global, query: &[u8]) -> Result<bool, AllocError>
    ensures { IfOk result (λ has. has ≡ list_any is_token_piece (slice_split is_ampersand query.now)) }
{
    let mut found = false;
    for piece in query.split(|b| *b == b'&') {
        found |= is_token_piece(alloc, piece)?;
    }
    Ok(found)
}

fn is_token_piece(alloc: Global, piece: &[u8]) -> Result<bool, AllocError>
    ensures { IfOk result (λ is. is ≡ is_token_piece piece.now) }
{
    let key = percent_decode(before_first(piece, b'=')).into_cow(alloc)?;
    Ok(key.as_slice() == b"X-Amz-Security-Token".as_slice())
}

/// The head whose query has the token, where there is one.
fn head_with_token(alloc: Global, head: &Head, token: Option<&[u8]>) -> Result<Head, NoMemory<()>>
    ensures { IfOk result (λ h. h ≡ record head.now {
      uri = uri_with_token (option_map (λ t. t.now) token.entry) head.now.uri;
    }) }
{
    Ok(Head {
        method: head.method.try_clone(alloc)?,
        uri: uri_with_token(alloc, &head.uri, token)?,
        version: head.version,
        headers: head.headers.try_clone(alloc)?,
    })
}

fn uri_with_token(alloc: Global, uri: &Octets, token: Option<&[u8]>) -> Result<Octets, NoMemory<()>>
    ensures { IfOk result (λ text. text ≡ uri_with_token (option_map (λ t. t.now) token.entry) uri.now) }
{
    match token {
        Some(token) => with_token_pair(alloc, uri.as_slice(), token),
        None => uri.try_clone(alloc),
    }
}

fn with_token_pair(alloc: Global, uri: &[u8], token: &[u8]) -> Result<Octets, NoMemory<()>>
    ensures { IfOk result (λ text. text
        ≡ with_pair (token_key ++ (codes "=" ++ percent_encoded token.now)) uri.now) }
{
    with_pair(alloc, uri, b"X-Amz-Security-Token=", token)
}

/// The URI with one pair more: this text, and the value encoded.
fn with_pair(alloc: Global, uri: &[u8], before: &[u8], value: &[u8]) -> Result<Octets, NoMemory<()>>
    ensures { IfOk result (λ text. text ≡ with_pair (before.now ++ percent_encoded value.now) uri.now) }
{
    let uri = before_first(uri, b'#');
    let mut text = Vec::from_slice(alloc, uri)?;
    text.push(separator(uri))?;
    text.extend_from_slice(before)?;
    text.extend_from_slice(encode(alloc, value)?.as_slice())?;
    Ok(Octets::from_vec(text))
}

/// What stands between a URI and a pair more of its query.
fn separator(uri: &[u8]) -> u8
    ensures { result ∷ [] ≡ (if list_any is_question_mark uri.now then codes "&" else codes "?") }
{
    if has_query(uri) { b'&' } else { b'?' }
}

fn has_query(uri: &[u8]) -> bool
    ensures { result ≡ list_any is_question_mark uri.now }
{
    uri.iter().any(|b| *b == b'?')
}
