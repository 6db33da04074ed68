//! Until when a credential has to last.
ghost use Rattle.sequential_signer.specs.Deadline.{operation_end};

use sequential_signer::{DeadlineRule, SigningCredential, operation_end};
use sign_base::Timestamp;
use std::marker::PhantomData;
use std::time::Duration;

/// The rule of most services: a credential has to last to the end of its operation.
#[derive(Drop)]
pub struct OperationEnd<K> {
    of: PhantomData<K>,
}

impl<K> OperationEnd<K> {
    pub fn new() -> OperationEnd<K> {
        OperationEnd { of: PhantomData }
    }
}

impl<K: SigningCredential> DeadlineRule for OperationEnd<K> {
    type Credential = K;

    ghost deadline = { λ rule credential duration now. operation_end duration now };

    fn required_valid_until(
        &self,
        _credential: &K,
        expires_in: Option<Duration>,
        now: Timestamp,
    ) -> Option<Timestamp> {
        operation_end(expires_in, now)
    }
}
