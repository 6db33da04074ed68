//! A head, signed in its headers.
ghost use Rattle.std.specs.Prelude.{◌≡◌};
ghost use Rattle.sigv4_core.specs.SignedHead.{signing_of};
ghost use Rattle.domreth_sign.specs.Answers.{Answers, by_signing, signed_lines};

use crate::Refusal;
use crate::added_lines::added_lines;
use crate::asked::{Asked, payload_given};
use crate::given::{GivenHead, GivenKey};
use sigv4_core::{Payload, sign_head};
use std::alloc::Global;

/// The headers that a signature adds to the head, as lines of HTTP/1.1 (RFC 9112, 5): `host` where the head
/// has none, `x-amz-date` and `authorization`. They are to be sent behind the head's own headers, but for
/// those of the last two names, which they replace.
///
/// The payload is the SHA-256 of the content in lower-case hexadecimal, or `UNSIGNED-PAYLOAD`; the moment
/// is in seconds since the start of 1970. What else the signature asks for, as `x-amz-security-token`, is
/// in the head before.
///
/// Errors: the first that holds of `Payload`, `Second`, `Version`, `Key`, `Scope`, `Head`, `Authority`,
/// `Path` and `Moment`; or `OutOfMemory`.
pub fn sign_lines(
    alloc: Global,
    head: &GivenHead<'_>,
    key: &GivenKey<'_>,
    payload: &[u8],
    second: i64,
) -> Result<Vec<u8>, Refusal>
    ensures { Answers (λ text. text.items) (signed_lines head.now key.now payload.now second) result }
{
    let payload = payload_given(alloc, payload)?;
    let asked = Asked::of(alloc, head, key, second)?;
    signed(alloc, &asked, &payload)
}

/// The lines that sign what is asked for.
fn signed(alloc: Global, asked: &Asked, payload: &Payload) -> Result<Vec<u8>, Refusal>
    ensures { Answers (λ text. text.items) (by_signing asked.now.head
        (signing_of asked.now.credential asked.now.scope payload.now asked.now.moment asked.now.head))
        result }
{
    let Asked {
        moment,
        credential,
        scope,
        head,
    } = asked;
    let signed = sign_head(alloc, head, credential, scope, payload, *moment)?;
    Ok(added_lines(alloc, head.headers.as_slice(), signed.headers.as_slice())?)
}
