//! By what moment a call is judged.
ghost use Rattle.std.specs.Prelude.{ℤ};

use sign_base::Timestamp;

/// Shows the moment at which a credential has to be fresh. Threads share it, so it may show another each time.
/// A service that dates what it signs is dated by the same clock.
pub trait GateClock: Drop {
    /// The moments that it may show.
    ghost shows: { Self → ℤ → Type 0 };

    /// The moment now.
    fn now(&self) -> Timestamp
        ensures { shows self.now result };
}
