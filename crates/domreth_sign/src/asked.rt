//! What is asked for by what is given.
ghost use Rattle.std.specs.Prelude.{◌≡◌};
ghost use Rattle.sign_base.specs.declared.error_kind.ErrorKind.TheVariants as kind;
ghost use Rattle.domreth_sign.specs.Answers.{Answers};
ghost use Rattle.domreth_sign.specs.Asked.{moment_given, version_given, credential_given, scope_given};
ghost use Rattle.domreth_sign.specs.Asked.{payload_given, asked_of};

use crate::Refusal;
use crate::given::{GivenHead, GivenKey};
use crate::given_head::{head_given, version_numbered};
use sign_base::{Error, ErrorKind, Head, Timestamp, Version};
use sigv4_core::{Payload, SigCredential, SigScope};
use std::alloc::Global;

const NANOS_OF_SECOND: i128 = 1_000_000_000;

/// A head, with whose key and for what it is to be signed, and when.
#[derive(Drop)]
pub(crate) struct Asked {
    pub(crate) moment: Timestamp,
    pub(crate) credential: SigCredential,
    pub(crate) scope: SigScope,
    pub(crate) head: Head,
}

impl Asked {
    /// What is asked for, or the first cause why it cannot be.
    #[tactic(auto, unfolding(crate::specs::Asked::asked_of))]
    pub(crate) fn of(
        alloc: Global,
        head: &GivenHead<'_>,
        key: &GivenKey<'_>,
        second: i64,
    ) -> Result<Asked, Refusal>
        ensures { Answers (λ asked. asked) (asked_of head.now key.now second) result }
    {
        let moment = moment_given(second)?;
        let version = version_given(head.version)?;
        let credential = credential_given(alloc, key)?;
        let scope = scope_given(alloc, key.region, key.service)?;
        Ok(Asked {
            moment,
            credential,
            scope,
            head: head_given(alloc, head, version)?,
        })
    }
}

/// The moment so many seconds after the start of 1970.
pub(crate) fn moment_given(second: i64) -> Result<Timestamp, Refusal>
    ensures { result ≡ moment_given second }
{
    Timestamp::from_nanos(i128::from(second) * NANOS_OF_SECOND).ok_or(Refusal::Second)
}

/// The version of HTTP with this number.
pub(crate) fn version_given(number: u8) -> Result<Version, Refusal>
    ensures { result ≡ version_given number }
{
    version_numbered(number).ok_or(Refusal::Version)
}

/// The access key and its secret.
pub(crate) fn credential_given(alloc: Global, key: &GivenKey<'_>) -> Result<SigCredential, Refusal>
    ensures { Answers (λ credential. credential) (credential_given key.now) result }
{
    match SigCredential::new(alloc, key.access, key.secret, None) {
        Ok(credential) => Ok(credential),
        Err(error) => Err(refused(error, Refusal::Key)),
    }
}

/// The region and the service.
pub(crate) fn scope_given(alloc: Global, region: &[u8], service: &[u8]) -> Result<SigScope, Refusal>
    ensures { Answers (λ scope. scope) (scope_given region.now service.now) result }
{
    match SigScope::new(alloc, region, service) {
        Ok(scope) => Ok(scope),
        Err(error) => Err(refused(error, Refusal::Scope)),
    }
}

/// The payload that a word names: `UNSIGNED-PAYLOAD`, or by its digest.
pub(crate) fn payload_given(alloc: Global, word: &[u8]) -> Result<Payload, Refusal>
    ensures { Answers (λ payload. payload) (payload_given word.now) result }
{
    if word == b"UNSIGNED-PAYLOAD".as_slice() {
        return Ok(Payload::unsigned(alloc)?);
    }
    match Payload::digest(alloc, word) {
        Ok(payload) => Ok(payload),
        Err(error) => Err(refused(error, Refusal::Payload)),
    }
}

/// What the refusal of a part means: this cause, unless an allocation failed.
fn refused(error: Error, cause: Refusal) -> Refusal
    ensures memory { error.kind ≡ kind.OutOfMemory → result ≡ Refusal.OutOfMemory }
    ensures refused { (error.kind ≡ kind.OutOfMemory → ⊥) → result ≡ cause }
{
    if error.kind() == ErrorKind::OutOfMemory {
        Refusal::OutOfMemory
    } else {
        cause
    }
}
