//! What is asked for by what is given, under a key that was derived before.
ghost use Rattle.std.specs.Prelude.{◌≡◌};
ghost use Rattle.std.specs.Char.{is_ascii_graphic};
ghost use Rattle.std.specs.List.{list_all};
ghost use Rattle.domreth_sign.specs.Answers.{Answers};
ghost use Rattle.domreth_sign.specs.DerivedKeys.{is_access_key, is_derived, derived_scope, asked_under};

use crate::Refusal;
use crate::asked::{moment_given, scope_given, version_given};
use crate::given::{GivenDerived, GivenHead};
use crate::given_head::head_given;
use sign_base::{Head, Timestamp};
use sigv4_core::SigScope;
use std::alloc::Global;

/// How many bytes a signing key has.
const KEY_LEN: usize = 32;

/// A head, for what it is to be signed, and when.
#[derive(Drop)]
pub(crate) struct AskedUnder {
    pub(crate) moment: Timestamp,
    pub(crate) scope: SigScope,
    pub(crate) head: Head,
}

impl AskedUnder {
    /// What is asked for under this key, or the first cause why it cannot be.
    #[tactic(auto, unfolding(crate::specs::DerivedKeys::asked_under))]
    pub(crate) fn of(
        alloc: Global,
        head: &GivenHead<'_>,
        derived: &GivenDerived<'_>,
        second: i64,
    ) -> Result<AskedUnder, Refusal>
        ensures { Answers (λ asked. asked) (asked_under head.now derived.now second) result }
    {
        let moment = moment_given(second)?;
        let version = version_given(head.version)?;
        let scope = derived_scope(alloc, derived)?;
        Ok(AskedUnder {
            moment,
            scope,
            head: head_given(alloc, head, version)?,
        })
    }
}

/// What the key is for, where it has the form of one.
fn derived_scope(alloc: Global, derived: &GivenDerived<'_>) -> Result<SigScope, Refusal>
    ensures { Answers (λ scope. scope) (derived_scope derived.now) result }
{
    if !is_derived(derived.access, derived.key) {
        return Err(Refusal::Key);
    }
    scope_given(alloc, derived.region, derived.service)
}

/// Whether this is an access key with a key of 32 bytes.
fn is_derived(access: &[u8], key: &[u8]) -> bool
    ensures { result ≡ is_derived access.now key.now }
{
    is_access_key(access) && key.len() == KEY_LEN
}

fn is_access_key(access: &[u8]) -> bool
    ensures { result ≡ is_access_key access.now }
{
    !access.is_empty() && is_visible(access)
}

fn is_visible(bytes: &[u8]) -> bool
    ensures { result ≡ list_all is_ascii_graphic bytes.now }
{
    bytes.iter().all(|b| b.is_ascii_graphic())
}
