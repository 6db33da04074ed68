//! How long a credential has to last for an operation.
ghost use Rattle.std.specs.Prelude.{◌≡◌, ℤ, ℕ, Option, option_map};
ghost use Rattle.std.specs.Duration.{as_nanos};

use crate::SigningCredential;
use sign_base::Timestamp;
use std::time::Duration;

/// How long a credential has to last for an operation: to its deadline.
pub trait DeadlineRule: Drop {
    type Credential: SigningCredential;

    /// The moment that the credential must outlast: the rule, the credential, how long the
    /// operation may take in nanoseconds, now. None where it is out of range.
    ghost deadline: { Self → Self.Credential → Option ℕ → ℤ → Option ℤ };

    /// The deadline, a function of the rule, the credential, how long the operation may take, and
    /// now. None where it is out of the range of moments.
    fn required_valid_until(
        &self,
        credential: &Self::Credential,
        expires_in: Option<Duration>,
        now: Timestamp,
    ) -> Option<Timestamp>
        ensures { result ≡ deadline self.now credential.now (option_map as_nanos expires_in) now };
}
