//! A request-signing service of the tests, which does what it says.
ghost use Rattle.std.specs.Prelude.{⊤};
ghost use Rattle.sequential_signer.specs.Deadline.{operation_end};

use crate::key::Key;
use crate::source::{Vault, failure};
use credentials::{Polled, SignRequest};
use fixtures::push_header;
use sequential_signer::{DeadlineRule, operation_end};
use sign_base::{Head, NoMemory, Octets, Timestamp, Version};
use std::alloc::Global;
use std::time::Duration;

/// What a service does to the candidate.
#[derive(Clone, Copy)]
pub(crate) enum Stamp {
    /// Puts the number of the key into a header.
    Header,
    /// The same, at the second poll of a work.
    HeaderLater,
    /// The same, and in place of its first answer it has no memory.
    HeaderWithoutMemory,
    /// Another method and another version.
    MethodAndVersion,
    /// This URI.
    Uri(&'static str),
    /// A header whose value is this.
    Value(&'static str),
    Fails,
}

impl DeadlineRule for Stamp {
    type Credential = Key;

    ghost deadline = { λ stamp key duration now. operation_end duration now };

    fn required_valid_until(
        &self,
        _credential: &Key,
        expires_in: Option<Duration>,
        now: Timestamp,
    ) -> Option<Timestamp> {
        operation_end(expires_in, now)
    }
}

/// A signing that was begun: its key, and whether it was polled.
#[derive(Clone, Copy)]
pub(crate) struct Work {
    key: Key,
    polled: bool,
}

impl SignRequest for Stamp {
    type Ctx = Vault;

    type Work = Work;

    ghost started = { λ stamp vault operation work. ⊤ };

    ghost ready = { λ stamp vault work. ⊥ };

    ghost gives = { λ stamp vault operation head outcome. ⊤ };

    fn sign_request(
        &self,
        _alloc: Global,
        _vault: &Vault,
        credential: &Key,
        _expires_in: Option<Duration>,
    ) -> Result<Work, NoMemory<()>> {
        Ok(Work {
            key: *credential,
            polled: false,
        })
    }

    fn poll_sign(
        &self,
        alloc: Global,
        _vault: &Vault,
        work: &mut Work,
        candidate: &mut Head,
    ) -> Polled<()> {
        let polled = work.polled;
        work.polled = true;
        match self {
            Stamp::HeaderLater if !polled => Polled::Pending,
            Stamp::HeaderWithoutMemory if !polled => Polled::OutOfMemory,
            Stamp::Fails => failure(alloc, "no stamp"),
            _ => match stamped(alloc, *self, work.key, candidate) {
                Ok(()) => Polled::Ready(()),
                Err(_) => Polled::OutOfMemory,
            },
        }
    }
}

/// Changes the candidate as the stamp says.
fn stamped(
    alloc: Global,
    stamp: Stamp,
    key: Key,
    candidate: &mut Head,
) -> Result<(), NoMemory<()>> {
    match stamp {
        Stamp::MethodAndVersion => {
            candidate.method = Octets::from_slice(alloc, b"PUT")?;
            candidate.version = Version::V2;
            Ok(())
        }
        Stamp::Uri(uri) => {
            candidate.uri = Octets::from_slice(alloc, uri.as_bytes())?;
            Ok(())
        }
        Stamp::Value(value) => push_header(alloc, candidate, b"load", value.as_bytes()),
        _ => push_number(alloc, key, candidate),
    }
}

/// Puts the number of the key into a header.
fn push_number(alloc: Global, key: Key, candidate: &mut Head) -> Result<(), NoMemory<()>> {
    let value = format!(in alloc; "{}", key.number)?;
    push_header(alloc, candidate, b"load", value.as_bytes())
}
