//! The moments that it may be at a check, whose clock may be wrong.
ghost use Rattle.std.specs.Prelude.{◌≡◌, ◌+ℤ◌, ◌-ℤ◌, pos};
ghost use Rattle.std.specs.Duration.{as_nanos};

use sign_base::Timestamp;
use std::time::Duration;

/// All moments from the soonest to the latest, in nanoseconds since 1970. They may be out of the range that a
/// `Timestamp` has.
#[derive(Clone, Copy)]
pub struct TimeSpan {
    pub soonest: i128,
    pub latest: i128,
}

impl TimeSpan {
    /// This moment alone, by a clock that is right.
    pub fn at(now: Timestamp) -> TimeSpan
        ensures { result ≡ record { soonest = now; latest = now } }
    {
        TimeSpan {
            soonest: now.as_nanos(),
            latest: now.as_nanos(),
        }
    }

    /// The moments around this one, by a clock that may be wrong by so much, either way.
    pub fn around(now: Timestamp, tolerance: Duration) -> TimeSpan
        ensures { result ≡ record {
          soonest = now -ℤ pos (as_nanos tolerance);
          latest = now +ℤ pos (as_nanos tolerance);
        } }
    {
        let nanos = now.as_nanos();
        let by = tolerance.as_nanos() as i128;
        TimeSpan {
            soonest: nanos - by,
            latest: nanos + by,
        }
    }
}
