//! A key, and the rule that most services have.
ghost use Rattle.std.specs.Prelude.{int_lt};
ghost use Rattle.sequential_signer.specs.Deadline.{operation_end};

use sequential_signer::{DeadlineRule, SigningCredential, operation_end};
use sign_base::{NoMemory, Timestamp};
use std::alloc::Global;
use std::time::Duration;

/// A key that can be used until it expires. Its own debug form shows its number, which is its secret.
#[derive(Clone, Copy, Debug)]
pub(crate) struct Key {
    pub(crate) number: u64,
    pub(crate) expires: Timestamp,
}

impl SigningCredential for Key {
    const NAME: &'static str = "Key";

    ghost valid = { λ key now. int_lt now key.expires };

    ghost valid_at = { λ key moment now. int_lt moment key.expires };

    fn is_valid(&self, now: Timestamp) -> bool {
        now < self.expires
    }

    fn is_valid_at(&self, ts: Timestamp, _now: Timestamp) -> bool {
        ts < self.expires
    }

    fn try_clone(&self, _alloc: Global) -> Result<Key, NoMemory<()>> {
        Ok(*self)
    }
}

/// A key has to last to the end of the operation.
#[derive(Clone, Copy)]
pub(crate) struct ToTheEnd;

impl DeadlineRule for ToTheEnd {
    type Credential = Key;

    ghost deadline = { λ rule key duration now. operation_end duration now };

    fn required_valid_until(
        &self,
        _credential: &Key,
        expires_in: Option<Duration>,
        now: Timestamp,
    ) -> Option<Timestamp> {
        operation_end(expires_in, now)
    }
}

/// The moment of this second since 1970.
pub(crate) fn at(alloc: Global, second: i64) -> Option<Timestamp> {
    Timestamp::from_second(alloc, second).ok()
}
