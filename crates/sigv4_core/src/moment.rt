//! When a signature is made.
ghost use Rattle.std.specs.Prelude.{◌≡◌, ℤ};
ghost use Rattle.std.specs.Bool.{OnFalse};
ghost use Rattle.sign_time.specs.Calendar.{IsFourDigitYear, day_of};
ghost use Rattle.sigv4_core.specs.SignedHead.{is_before_year_0};

use sign_base::Timestamp;

/// The nanoseconds from 1970 back to the start of the year 0.
const YEAR_0: i128 = -62_167_219_200_000_000_000;

/// The nanoseconds of a day.
const DAY: u128 = 86_400_000_000_000;

/// What a service works in that says when it signs.
pub trait Moment: Drop {
    /// The moment, a function of the value.
    ghost moment_of: { Self → ℤ };

    /// The moment at which a signature is made.
    fn moment(&self) -> Timestamp
        ensures { result ≡ moment_of self.now };
}

/// A moment that was taken once.
#[derive(Clone, Copy, Debug, PartialEq, Eq)]
pub struct FixedMoment(pub Timestamp);

impl Moment for FixedMoment {
    ghost moment_of = { λ m. m.0 };

    fn moment(&self) -> Timestamp {
        self.0
    }
}

/// Whether the moment lies before the year 0, whose dates a signature cannot name.
pub fn is_before_year_0(now: Timestamp) -> bool
    ensures value { result ≡ is_before_year_0 now }
    ensures year { OnFalse result (IsFourDigitYear now) }
{
    now.as_nanos() < YEAR_0
}

/// The day of a moment, counted from the start of the year 0.
pub(crate) fn day_of(now: Timestamp) -> u128
    requires { IsFourDigitYear now }
    ensures { result ≡ day_of now }
{
    (now.as_nanos() - YEAR_0) as u128 / DAY
}
