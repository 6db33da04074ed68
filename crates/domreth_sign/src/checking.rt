//! The check of a link.
ghost use Rattle.std.specs.Prelude.{◌≡◌};
ghost use Rattle.sigv4_presign.specs.CheckedLink.{checked};
ghost use Rattle.domreth_sign.specs.Answers.{Answers, by_check, link_check};

use crate::Refusal;
use crate::asked::Asked;
use crate::given::{GivenHead, GivenKey};
use sigv4_presign::verify;
use std::alloc::Global;

/// Whether the head's URI is a link of this key that is valid at the moment, which is in seconds since the
/// start of 1970. The URI has to name the authority, as it does in the link.
///
/// Errors: the first that holds of `Second`, `Version`, `Key`, `Scope`, `Head`, `Authority`, `Path`,
/// `Shape`, `Credential`, `Early`, `Late` and `Signature`; or `OutOfMemory`. Tell a sender of `Signature`
/// only that the link is none of this key's.
pub fn check_link(
    alloc: Global,
    head: &GivenHead<'_>,
    key: &GivenKey<'_>,
    second: i64,
) -> Result<(), Refusal>
    ensures { Answers (λ valid. valid) (link_check head.now key.now second) result }
{
    let asked = Asked::of(alloc, head, key, second)?;
    checked(alloc, &asked)
}

/// What is found at the link that is asked for.
fn checked(alloc: Global, asked: &Asked) -> Result<(), Refusal>
    ensures { Answers (λ valid. valid) (by_check
        (checked asked.now.credential asked.now.scope asked.now.moment asked.now.head)) result }
{
    let Asked {
        moment,
        credential,
        scope,
        head,
    } = asked;
    Refusal::unless_valid(verify(alloc, head, credential, scope, *moment)?)
}
