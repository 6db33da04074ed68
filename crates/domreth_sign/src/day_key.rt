//! The signing key of a day.
ghost use Rattle.std.specs.Prelude.{◌≡◌, IfOk};
ghost use Rattle.domreth_sign.specs.Answers.{Answers};
ghost use Rattle.domreth_sign.specs.DerivedKeys.{key_bytes, derived_bytes};

use crate::Refusal;
use crate::asked::{credential_given, moment_given, scope_given};
use crate::given::GivenKey;
use sign_base::{NoMemory, Timestamp};
use sigv4_core::{SigCredential, SigScope, SigningKey, is_before_year_0};
use std::alloc::Global;

/// The signing key of the access key's secret for the moment's day, the region and the service: 32 bytes.
/// Who has them can sign for these as who has the secret, and for no other day, region or service.
///
/// The moment is in seconds since the start of 1970, and the day is that of UTC.
///
/// Errors: the first that holds of `Second`, `Key`, `Scope` and `Moment`; or `OutOfMemory`.
pub fn derive_key(alloc: Global, key: &GivenKey<'_>, second: i64) -> Result<Vec<u8>, Refusal>
    ensures { Answers (λ bytes. bytes.items) (derived_bytes key.now second) result }
{
    let moment = moment_given(second)?;
    let credential = credential_given(alloc, key)?;
    let scope = scope_given(alloc, key.region, key.service)?;
    key_bytes(alloc, &credential, &scope, moment)
}

/// The bytes of the signing key of the moment's day.
fn key_bytes(
    alloc: Global,
    credential: &SigCredential,
    scope: &SigScope,
    moment: Timestamp,
) -> Result<Vec<u8>, Refusal>
    ensures { Answers (λ bytes. bytes.items) (key_bytes credential.now scope.now moment) result }
{
    if is_before_year_0(moment) {
        return Err(Refusal::Moment);
    }
    let key = SigningKey::derive(alloc, credential, scope, moment)?;
    Ok(copied(alloc, key.as_slice())?)
}

/// The same bytes.
fn copied(alloc: Global, bytes: &[u8]) -> Result<Vec<u8>, NoMemory<()>>
    ensures { IfOk result (λ copy. copy.items ≡ bytes.now) }
{
    Ok(Vec::from_slice(alloc, bytes)?)
}
