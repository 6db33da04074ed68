//! What a rule answers that asks for no more than the end of the operation. A trait has no default
//! bodies here, since its implementations state their meanings themselves: a rule names the definition
//! as its meaning, and calls the function of the same name. A credential that knows no more than
//! whether it is valid now has the meaning `valid_as_now`, and its body is `self.is_valid(now)`.
ghost use Rattle.std.specs.Prelude.{◌≡◌, option_map};
ghost use Rattle.std.specs.Duration.{as_nanos};
ghost use Rattle.sequential_signer.specs.Deadline.{operation_end};

use sign_base::Timestamp;
use std::time::Duration;

/// The deadline of a rule that needs a credential to last to the end of the operation: now plus
/// `expires_in`, or now where that is None. None exactly where the sum is out of the range of moments.
pub fn operation_end(expires_in: Option<Duration>, now: Timestamp) -> Option<Timestamp>
    ensures { result ≡ operation_end (option_map as_nanos expires_in) now }
{
    match expires_in {
        Some(duration) => now.checked_add(duration),
        None => Some(now),
    }
}
