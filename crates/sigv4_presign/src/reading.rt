//! Who signed a link, as it says itself: read before any secret is looked up.
ghost use Rattle.std.specs.Prelude.{◌≡◌, IfOk, IfErr};
ghost use Rattle.sigv4_presign.specs.LinkClaims.{any_path, Names, IsUnread, QueryNames, QueryUnread};

use crate::claims_text::signer_of;
use crate::link_fields::read_fields;
use crate::link_target::query_of;
use crate::{LinkClaims, LinkUnread};
use sign_base::{Head, NoMemory};
use sign_request::HeaderSeeds;
use sigv4_core::{SigScope, target_to_sign};
use std::alloc::Global;

/// What the link in a head's URI names: who signed it, for which region and service, from when on, and for
/// how long it is good; or the first of `LinkUnread` that holds.
///
/// It needs neither a credential nor a scope, so a gateway that has many keys asks it first, looks up the
/// secret of `access`, and then calls `verify` with that and with `scope`, which does not answer
/// `Credential` then (the law `a_link_names_its_signer`). Until `verify` says so nothing of it is true: who
/// made the link up chose what it names. Compare the scope with those that the gateway serves.
///
/// A path may have escapes here, as for `s3`: whether the service of the link signs them is for `verify` to
/// say. An access key may have a `/`. Where the names of the headers come from outside, call
/// `read_link_seeded`.
pub fn read_link(alloc: Global, head: &Head) -> Result<LinkClaims, LinkUnread>
    ensures ok { IfOk result (Names head.now) }
    ensures err { IfErr result (IsUnread head.now) }
{
    read_link_seeded(alloc, head, HeaderSeeds::default())
}

/// Answers what `read_link` does, whatever the keys.
pub fn read_link_seeded(
    alloc: Global,
    head: &Head,
    keys: HeaderSeeds,
) -> Result<LinkClaims, LinkUnread>
    ensures ok { IfOk result (Names head.now) }
    ensures err { IfErr result (IsUnread head.now) }
{
    let scope = any_path(alloc)?;
    let uri = target_to_sign(alloc, head, &scope, keys)?;
    claims_of(alloc, query_of(&uri))
}

/// The scope of an object store.
fn any_path(alloc: Global) -> Result<SigScope, NoMemory<()>>
    ensures { IfOk result (λ scope. scope ≡ any_path) }
{
    match SigScope::new(alloc, b"any", b"s3") {
        Ok(scope) => Ok(scope),
        Err(_) => Err(NoMemory { back: () }),
    }
}

/// What a link with this query names.
fn claims_of(alloc: Global, query: &str) -> Result<LinkClaims, LinkUnread>
    ensures ok { IfOk result (QueryNames query.now) }
    ensures err { IfErr result (QueryUnread query.now) }
{
    let Some(link) = read_fields(alloc, query)? else {
        return Err(LinkUnread::Shape);
    };
    let Some(signer) = signer_of(alloc, link.credential.as_bytes(), link.date)? else {
        return Err(LinkUnread::Credential);
    };
    Ok(LinkClaims {
        access: signer.access,
        scope: signer.scope,
        date: link.date,
        expires: link.expires,
    })
}
