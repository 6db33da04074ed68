//! A link.
ghost use Rattle.std.specs.Prelude.{◌≡◌};
ghost use Rattle.sigv4_presign.specs.PresignedLink.{presigning_of};
ghost use Rattle.domreth_sign.specs.Answers.{Answers, by_presigning, link_text};

use crate::Refusal;
use crate::asked::Asked;
use crate::given::{GivenHead, GivenKey};
use sign_base::{Head, Octets};
use sigv4_presign::presign;
use std::alloc::Global;

/// The link by which who has it can send this request for `expires` seconds from the moment on, which is in
/// seconds since the start of 1970. Method, version and headers stay; of these the signature covers the
/// method and the host.
///
/// Errors: the first that holds of `Second`, `Version`, `Key`, `Scope`, `Head`, `Authority`, `Path`,
/// `Moment`, `Already`, `Expires` and `Link`; or `OutOfMemory`.
pub fn make_link(
    alloc: Global,
    head: &GivenHead<'_>,
    key: &GivenKey<'_>,
    expires: u32,
    second: i64,
) -> Result<Octets, Refusal>
    ensures { Answers (λ link. link) (link_text head.now key.now expires second) result }
{
    let asked = Asked::of(alloc, head, key, second)?;
    made(alloc, &asked, expires)
}

/// The link that is asked for.
fn made(alloc: Global, asked: &Asked, expires: u32) -> Result<Octets, Refusal>
    ensures { Answers (λ link. link) (by_presigning
        (presigning_of asked.now.credential asked.now.scope expires asked.now.moment asked.now.head)) result }
{
    let Asked {
        moment,
        credential,
        scope,
        head,
    } = asked;
    let link = presign(alloc, head, credential, scope, expires, *moment)?;
    Ok(link.into_target().0)
}
