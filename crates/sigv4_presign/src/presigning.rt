//! A request head whose URI is a presigned link.
ghost use Rattle.std.specs.Prelude.{◌≡◌, ◌⊎◌, Ok, Err, IfOk, IfErr, is_some};
ghost use Rattle.sign_request.specs.PlainTarget.{plain_target, target_of};
ghost use Rattle.sigv4_core.specs.SignedHead.{target_to_sign};
ghost use Rattle.sigv4_presign.specs.LinkPairs.{has_link_name};
ghost use Rattle.sigv4_presign.specs.PresignedLink.{presigning_of};

use crate::PresignError;
use crate::link_date::is_expiry;
use crate::link_parts::presigned_link;
use crate::link_query::{has_link_name, pieces_of};
use crate::link_target::query_of;
use http_uri::{Uri, UriError};
use sign_base::{Head, NoMemory, Octets, Timestamp};
use sign_request::HeaderSeeds;
use sigv4_core::{KeptKey, SigCredential, SigScope, is_before_year_0, target_to_sign};
use std::alloc::Global;

/// The head with a presigned link as its URI, as AWS Signature Version 4 has it ("Authenticating requests:
/// using query parameters"): who has the link can send this request, any number of times, for `expires`
/// seconds from the whole second at or before `now` on. Method, version and headers stay.
///
/// Before the call, put a session token into the query, as the pair `X-Amz-Security-Token`, percent-encoded
/// (RFC 3986, 2.1), and write the authority as agents will send it in `host`: in lower case, without user,
/// password and default port (RFC 9110, 4.2.3). Hand the link out with the method that it is for. The
/// signature covers the method, the path, the query and, of the headers, the host alone; not the content.
///
/// When the credential expires is not asked, so a link may outlive its key: ask `is_valid_at` for the link's
/// end first. Where the names of the headers come from outside, call `presign_seeded`.
pub fn presign(
    alloc: Global,
    head: &Head,
    credential: &SigCredential,
    scope: &SigScope,
    expires: u32,
    now: Timestamp,
) -> Result<Head, PresignError>
    ensures ok { IfOk result (λ h. presigning_of credential.now scope.now expires now head.now ≡ Ok h) }
    ensures err { IfErr result (λ why. (why ≡ PresignError.OutOfMemory)
        ⊎ (presigning_of credential.now scope.now expires now head.now ≡ Err why)) }
{
    presign_seeded(
        alloc,
        head,
        credential,
        scope,
        expires,
        now,
        HeaderSeeds::default(),
    )
}

/// Answers what `presign` does, whatever the keys.
pub fn presign_seeded(
    alloc: Global,
    head: &Head,
    credential: &SigCredential,
    scope: &SigScope,
    expires: u32,
    now: Timestamp,
    keys: HeaderSeeds,
) -> Result<Head, PresignError>
    ensures ok { IfOk result (λ h. presigning_of credential.now scope.now expires now head.now ≡ Ok h) }
    ensures err { IfErr result (λ why. (why ≡ PresignError.OutOfMemory)
        ⊎ (presigning_of credential.now scope.now expires now head.now ≡ Err why)) }
{
    let mut kept = KeptKey::new();
    let made = presign_kept(
        alloc, head, credential, scope, expires, now, keys, &mut kept,
    );
    drop(kept);
    made
}

/// Answers what `presign_seeded` does, with the signing key that is kept, where it is that of the credential,
/// the scope and the day. Where it is not, that one is derived, and kept from then on.
#[tactic(auto, unfolding(crate::specs::PresignedLink::presigning_of))]
pub fn presign_kept(
    alloc: Global,
    head: &Head,
    credential: &SigCredential,
    scope: &SigScope,
    expires: u32,
    now: Timestamp,
    keys: HeaderSeeds,
    kept: &mut KeptKey,
) -> Result<Head, PresignError>
    ensures ok { IfOk result (λ h. presigning_of credential.now scope.now expires now head.now ≡ Ok h) }
    ensures err { IfErr result (λ why. (why ≡ PresignError.OutOfMemory)
        ⊎ (presigning_of credential.now scope.now expires now head.now ≡ Err why)) }
{
    let uri = target_to_sign(alloc, head, scope, keys)?;
    let made = presign_target(alloc, head, &uri, credential, scope, expires, now, kept);
    drop(uri);
    made
}

/// The head with a presigned link to its target.
#[tactic(auto, unfolding(crate::specs::PresignedLink::presigning_of))]
fn presign_target(
    alloc: Global,
    head: &Head,
    uri: &Uri,
    credential: &SigCredential,
    scope: &SigScope,
    expires: u32,
    now: Timestamp,
    kept: &mut KeptKey,
) -> Result<Head, PresignError>
    requires { target_to_sign scope.now head.now ≡ Ok (plain_target uri.now) }
    ensures ok { IfOk result (λ h. presigning_of credential.now scope.now expires now head.now ≡ Ok h) }
    ensures err { IfErr result (λ why. (why ≡ PresignError.OutOfMemory)
        ⊎ (presigning_of credential.now scope.now expires now head.now ≡ Err why)) }
{
    if is_before_year_0(now) {
        return Err(PresignError::Moment);
    }
    if is_presigned(alloc, query_of(uri))? {
        return Err(PresignError::Already);
    }
    if !is_expiry(expires) {
        return Err(PresignError::Expires);
    }
    let key = kept.key_for(alloc, credential, scope, now)?;
    let link = presigned_link(alloc, head, uri, credential, scope, key, expires, now)?;
    if !is_target(alloc, link.as_slice())? {
        drop(link);
        return Err(PresignError::Link);
    }
    Ok(with_uri(alloc, head, link)?)
}

/// Whether a key of the query is the name of a link's pair.
fn is_presigned(alloc: Global, query: &str) -> Result<bool, NoMemory<()>>
    ensures { IfOk result (λ is. is ≡ has_link_name query.now) }
{
    let pieces = pieces_of(alloc, query)?;
    Ok(has_link_name(pieces.as_slice()))
}

/// Whether `http` reads this text as a target.
fn is_target(alloc: Global, text: &[u8]) -> Result<bool, NoMemory<()>>
    ensures { IfOk result (λ is. is ≡ is_some (target_of text.now)) }
{
    match Uri::from_bytes(alloc, text) {
        Ok(_) => Ok(true),
        Err(UriError::OutOfMemory) => Err(NoMemory { back: () }),
        Err(UriError::Invalid(_)) => Ok(false),
    }
}

/// The head with this URI.
fn with_uri(alloc: Global, head: &Head, uri: Vec<u8>) -> Result<Head, NoMemory<()>>
    ensures { IfOk result (λ h. h ≡ record head.now { uri = uri.items }) }
{
    Ok(Head {
        method: head.method.try_clone(alloc)?,
        uri: Octets::from_vec(uri),
        version: head.version,
        headers: head.headers.try_clone(alloc)?,
    })
}
