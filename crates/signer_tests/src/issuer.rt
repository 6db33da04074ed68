//! A granting service of the tests, which answers as it says.
ghost use Rattle.std.specs.Prelude.{⊤};
ghost use Rattle.sequential_signer.specs.Deadline.{operation_end};

use crate::key::Key;
use crate::source::{Vault, failure};
use credentials::{GrantCredential, Polled};
use sequential_signer::{DeadlineRule, operation_end};
use sign_base::{NoMemory, Timestamp};
use std::alloc::Global;
use std::time::Duration;

/// What a granting service answers.
#[derive(Clone, Copy)]
pub(crate) enum Issuer {
    /// A key with the number of the source and a hundred for each work that was begun, which expires with
    /// the source.
    Makes,
    /// The same, at the second poll of a work.
    MakesLater,
    /// In place of its first answer it has no memory.
    MakesWithoutMemory,
    /// A key that expires 55 seconds before the source.
    MakesShort,
    Fails,
}

impl DeadlineRule for Issuer {
    type Credential = Key;

    ghost deadline = { λ rule key duration now. operation_end duration now };

    fn required_valid_until(
        &self,
        _credential: &Key,
        expires_in: Option<Duration>,
        now: Timestamp,
    ) -> Option<Timestamp> {
        operation_end(expires_in, now)
    }
}

/// A work: the key that is made, and whether it was polled.
#[derive(Clone, Copy)]
pub(crate) struct Work {
    made: Key,
    polled: bool,
}

impl GrantCredential for Issuer {
    type Ctx = Vault;

    type Work = Work;

    ghost started = { λ issuer vault operation work. ⊤ };

    ghost ready = { λ issuer vault work. ⊥ };

    ghost gives = { λ issuer vault operation answer. ⊤ };

    fn grant_credential(
        &self,
        _alloc: Global,
        vault: &Vault,
        source: &Key,
        _expires_in: Option<Duration>,
    ) -> Result<Work, NoMemory<()>> {
        let expires = match self {
            Issuer::MakesShort => source.expires.checked_sub(Duration::from_secs(55)),
            _ => Some(source.expires),
        };
        let made = Key {
            number: source
                .number
                .saturating_add(vault.next_work().saturating_mul(100)),
            expires: expires.unwrap_or(source.expires),
        };
        Ok(Work {
            made,
            polled: false,
        })
    }

    fn poll_grant(&self, alloc: Global, _vault: &Vault, work: &mut Work) -> Polled<Key> {
        let polled = work.polled;
        work.polled = true;
        match self {
            Issuer::MakesLater if !polled => Polled::Pending,
            Issuer::MakesWithoutMemory if !polled => Polled::OutOfMemory,
            Issuer::Fails => failure(alloc, "no grant"),
            _ => Polled::Ready(work.made),
        }
    }
}
