//! The target of a head that is to be signed, and why there is none.
ghost use Rattle.std.specs.Prelude.{◌≡◌, ◌⊎◌, ◌==◌, Ok, Err, Some, [], IfOk, IfErr, MatchResult, is_some};
ghost use Rattle.std.specs.Prelude.{unwrap_or};
ghost use Rattle.std.specs.List.{list_any};
ghost use Rattle.http_uri.specs.Grammar.{path_of, query_of};
ghost use Rattle.http_uri.specs.Uri.{uri_authority, uri_data};
ghost use Rattle.percent_encoding.specs.Percent.{percent_sign};
ghost use Rattle.sign_request.specs.PlainTarget.{plain_target};
ghost use Rattle.sigv4_core.specs.SignedHead.{target_to_sign, by_target, is_refused_path};

use crate::accepted_target::accepted_target;
use crate::{SigError, SigScope};
use http::uri::Uri;
use sign_base::Head;
use sign_request::HeaderSeeds;
use std::alloc::Global;

/// The target of a head that can be signed for this scope: the head is accepted, its URI names an
/// authority, and its path has no `%` unless the service is `s3`. No answer depends on the keys.
pub fn target_to_sign(
    alloc: Global,
    head: &Head,
    scope: &SigScope,
    keys: HeaderSeeds,
) -> Result<Uri, SigError>
    ensures ok { IfOk result (λ uri. target_to_sign scope.now head.now ≡ Ok (plain_target uri)) }
    ensures err { IfErr result (λ why. (why ≡ SigError.OutOfMemory)
        ⊎ (target_to_sign scope.now head.now ≡ Err why)) }
{
    let uri = accepted_target(alloc, head, keys)?;
    signable(uri, scope)
}

/// The target of an accepted head, if it can be signed for this scope.
fn signable(uri: Uri, scope: &SigScope) -> Result<Uri, SigError>
    ensures { MatchResult result
        (λ target. by_target scope.now (Some (plain_target uri)) ≡ Ok (plain_target target))
        (λ why. by_target scope.now (Some (plain_target uri)) ≡ Err why) }
{
    if !has_authority(&uri) {
        return Err(SigError::Authority);
    }
    if is_refused_path(scope, path_of(&uri)) {
        return Err(SigError::Path);
    }
    Ok(uri)
}

fn has_authority(uri: &Uri) -> bool
    ensures { result ≡ is_some (uri_authority uri.now) }
{
    uri.authority().is_some()
}

/// The authority of a target, or the empty text.
pub fn authority_of(uri: &Uri) -> &str
    ensures { result.now ≡ unwrap_or (uri_authority uri.now) [] }
{
    match uri.authority() {
        Some(authority) => authority.as_str(),
        None => "",
    }
}

/// The path as it is spelled, or `/`.
pub fn path_of(uri: &Uri) -> &str
    ensures { result.now ≡ path_of (uri_data uri.now) }
{
    let path = uri.path();
    if path.is_empty() { "/" } else { path }
}

/// The query as it is spelled, or the empty text.
pub(crate) fn query_of(uri: &Uri) -> &str
    ensures { result.now ≡ unwrap_or (query_of (uri_data uri.now)) [] }
{
    uri.query().unwrap_or("")
}

fn is_refused_path(scope: &SigScope, path: &str) -> bool
    ensures { result ≡ is_refused_path scope.now path.now }
{
    scope.service() != b"s3".as_slice() && has_escape(path.as_bytes())
}

fn has_escape(path: &[u8]) -> bool
    ensures { result ≡ list_any (λ b. b == percent_sign) path.now }
{
    path.iter().any(|b| *b == b'%')
}
