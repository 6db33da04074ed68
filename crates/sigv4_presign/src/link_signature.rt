//! The signature of a link.
ghost use Rattle.std.specs.Prelude.{◌≡◌, ◌∷◌, [], IfOk, codes};
ghost use Rattle.sign_time.specs.Calendar.{IsFourDigitYear};
ghost use Rattle.sign_request.specs.PlainTarget.{plain_target};
ghost use Rattle.sigv4_core.specs.Credential.{Credential};
ghost use Rattle.sigv4_core.specs.Scope.{Scope};
ghost use Rattle.sigv4_core.specs.Signature.{date_of, derived_key};
ghost use Rattle.sigv4_core.specs.SignedHead.{field};
ghost use Rattle.sigv4_presign.specs.PresignedLink.{link_signature};

use http_uri::Uri;
use sign_base::{Field, Fields, Head, NoMemory, Octets, Timestamp};
use sigv4_core::{SigningKey, authority_of, canonical, path_of};
use std::alloc::Global;

/// The signature of a link with this query, under the signing key of its credential, scope and day. It covers
/// the method, the path, the query, and of the headers the host alone, whose value is the authority.
#[tactic(auto, unfolding(crate::specs::PresignedLink::link_signature))]
pub(crate) fn link_signature(
    alloc: Global,
    head: &Head,
    uri: &Uri,
    query: &[u8],
    key: &SigningKey,
    now: Timestamp,
) -> Result<Octets, NoMemory<()>>
    requires year { IsFourDigitYear now }
    requires day { key.now.date ≡ date_of now }
    ensures { IfOk result (λ text. (keys : Credential) (scope : Scope) → key.now ≡ derived_key keys scope now
        → text ≡ link_signature keys scope now head.now (plain_target uri.now) query.now) }
{
    let host = host_alone(alloc, authority_of(uri))?;
    let request = canonical(
        alloc,
        head.method.as_slice(),
        path_of(uri).as_bytes(),
        query,
        &host,
        b"UNSIGNED-PAYLOAD",
    )?;
    key.signature(alloc, now, request.as_slice())
}

/// The headers that are signed.
fn host_alone(alloc: Global, authority: &str) -> Result<Fields, NoMemory<()>>
    ensures { IfOk result (λ fields. fields ≡ field (codes "host") authority.now ∷ []) }
{
    let mut fields = Vec::new(alloc);
    fields.push(Field {
        name: Octets::from_slice(alloc, b"host")?,
        value: Octets::from_slice(alloc, authority.as_bytes())?,
    })?;
    Ok(Fields::from_vec(fields))
}
