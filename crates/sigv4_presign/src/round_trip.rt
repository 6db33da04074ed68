//! A link that is given out and comes back, as an example that is proved: what is found at it is a matter of
//! time alone.
ghost use Rattle.std.specs.Prelude.{◌≡◌, ◌⊎◌, ◌↔◌, ◌<ℤ◌, ◌≤ℤ◌, IfOk, IfErr, Err};
ghost use Rattle.sign_time.specs.MomentRead.{whole_second};
ghost use Rattle.sigv4_presign.specs.LinkLaw.{IsGood, expiry_of, bare_request};
ghost use Rattle.sigv4_presign.specs.PresignedLink.{presigning_of};

use crate::{Checked, PresignError, presign, verify};
use sign_base::{Fields, Head, Timestamp, Version};
use sigv4_core::{SigCredential, SigScope};
use std::alloc::Global;

/// Makes a link, and checks the request of who has nothing but that: its method and its URI, without
/// headers, in HTTP/1.1.
///
/// Credential and scope are lent: that they are of the form that the law of links asks for is said by
/// `access` and `region`, and by `as_nanos` that a moment is in its range.
///
/// Errors: what `presign` refuses.
pub fn made_and_checked(
    alloc: Global,
    head: &Head,
    credential: &SigCredential,
    scope: &SigScope,
    expires: u32,
    made: Timestamp,
    arrived: Timestamp,
) -> Result<Checked, PresignError>
    ensures valid { IfOk result (λ found. (found ≡ Checked.Valid) ↔ IsGood made expires arrived) }
    ensures early { IfOk result (λ found. arrived <ℤ whole_second made → found ≡ Checked.Early) }
    ensures late { IfOk result (λ found. expiry_of made expires ≤ℤ arrived → found ≡ Checked.Late) }
    ensures err { IfErr result (λ why. (why ≡ PresignError.OutOfMemory)
        ⊎ (presigning_of credential.now scope.now expires made head.now ≡ Err why)) }
{
    credential.access();
    scope.region();
    made.as_nanos();
    let link = presign(alloc, head, credential, scope, expires, made)?;
    let request = bare_request(alloc, link);
    Ok(verify(alloc, &request, credential, scope, arrived)?)
}

fn bare_request(alloc: Global, mut link: Head) -> Head
    ensures { result ≡ bare_request link }
{
    link.version = Version::V11;
    link.headers = Fields::new(alloc);
    link
}
