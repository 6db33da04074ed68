//! When a signature is made that is made at a poll.
ghost use Rattle.std.specs.Prelude.{◌≡◌, ℤ, ⊤};

use sign_base::Timestamp;
use sigv4_core::FixedMoment;

/// What a service works in that tells it when it signs, at each poll anew. It may change behind a shared
/// borrow, as a clock does.
pub trait SigningClock: Drop {
    /// The moments that it may tell.
    ghost tells: { Self → ℤ → Type 0 };

    /// The moment of a signature that is made now.
    fn moment(&self) -> Timestamp
        ensures { tells self.now result };
}

/// Tells its moment for ever.
impl SigningClock for FixedMoment {
    ghost tells = { λ clock moment. moment ≡ clock.0 };

    fn moment(&self) -> Timestamp {
        self.0
    }
}
