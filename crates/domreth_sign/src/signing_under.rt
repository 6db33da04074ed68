//! A head, signed in its headers under a key that was derived before.
ghost use Rattle.std.specs.Prelude.{◌≡◌, ◌⊎◌, Ok, Err, IfOk, IfErr};
ghost use Rattle.sigv4_core.specs.SignedHead.{signing_with};
ghost use Rattle.domreth_sign.specs.Answers.{Answers, by_signing, signed_lines_with};
ghost use Rattle.domreth_sign.specs.DerivedKeys.{key_given};

use crate::Refusal;
use crate::added_lines::added_lines;
use crate::asked::payload_given;
use crate::asked_under::AskedUnder;
use crate::given::{GivenDerived, GivenHead};
use sign_base::Head;
use sign_request::HeaderSeeds;
use sigv4_core::{
    Payload, SigError, SigningKey, is_before_year_0, sign_head_with_key, target_to_sign,
};
use std::alloc::Global;

/// The lines that `sign_lines` adds to the head under the secret that the key was derived from, where it was
/// derived for the moment's day; that is not asked. Payload, moment and lines are as there.
///
/// Errors: the first that holds of `Payload`, `Second`, `Version`, `Key`, `Scope`, `Head`, `Authority`,
/// `Path` and `Moment`; or `OutOfMemory`. `Key`: the access key is none, or the key has not 32 bytes.
pub fn sign_lines_with(
    alloc: Global,
    head: &GivenHead<'_>,
    derived: &GivenDerived<'_>,
    payload: &[u8],
    second: i64,
) -> Result<Vec<u8>, Refusal>
    ensures { Answers (λ text. text.items)
        (signed_lines_with head.now derived.now payload.now second) result }
{
    let payload = payload_given(alloc, payload)?;
    let asked = AskedUnder::of(alloc, head, derived, second)?;
    signed(alloc, &asked, derived, &payload)
}

/// The lines that sign what is asked for under this key.
fn signed(
    alloc: Global,
    asked: &AskedUnder,
    derived: &GivenDerived<'_>,
    payload: &Payload,
) -> Result<Vec<u8>, Refusal>
    ensures { Answers (λ text. text.items) (by_signing asked.now.head (signing_with
        (key_given derived.now asked.now.scope asked.now.moment) payload.now asked.now.moment
        asked.now.head)) result }
{
    let head = signed_head(alloc, asked, derived, payload)?;
    Ok(added_lines(
        alloc,
        asked.head.headers.as_slice(),
        head.headers.as_slice(),
    )?)
}

/// The head with its signature under this key.
#[tactic(auto, unfolding(sigv4_core::specs::SignedHead::signing_with))]
fn signed_head(
    alloc: Global,
    asked: &AskedUnder,
    derived: &GivenDerived<'_>,
    payload: &Payload,
) -> Result<Head, SigError>
    ensures ok { IfOk result (λ h. signing_with (key_given derived.now asked.now.scope asked.now.moment)
        payload.now asked.now.moment asked.now.head ≡ Ok h) }
    ensures err { IfErr result (λ why. (why ≡ SigError.OutOfMemory)
        ⊎ (signing_with (key_given derived.now asked.now.scope asked.now.moment) payload.now
        asked.now.moment asked.now.head ≡ Err why)) }
{
    let AskedUnder {
        moment,
        scope,
        head,
    } = asked;
    let seeds = HeaderSeeds::default();
    if is_before_year_0(*moment) {
        // What refuses the head comes first.
        drop(target_to_sign(alloc, head, scope, seeds)?);
        return Err(SigError::Moment);
    }
    let key = SigningKey::from_bytes(alloc, derived.access, scope, *moment, derived.key)?;
    let signed = sign_head_with_key(alloc, head, &key, payload, *moment, seeds);
    drop(key);
    signed
}
