//! Numbers of a date with a fixed count of digits.
ghost use Rattle.std.specs.Prelude.{◌≡◌, pos, ◌≤ℤ◌, Some};
ghost use Rattle.sign_time.specs.MomentText.{two_digits, year_text};

use std::fmt;

/// A number below 100 in two digits.
#[derive(Clone, Copy)]
pub(crate) struct TwoDigits(pub u16);

impl TwoDigits {
    pub(crate) fn of(number: i8) -> TwoDigits
        requires { pos 0 ≤ℤ number }
        ensures { pos result.0 ≡ number }
    {
        TwoDigits(number as u16)
    }
}

impl fmt::Display for TwoDigits {
    ghost output = { λ n. Some (two_digits n.0) };

    fn fmt<W: fmt::Write>(&self, f: &mut fmt::Formatter<W>) -> fmt::Result {
        write!(f, "{}{}", self.0 / 10, self.0 % 10)
    }
}

/// A year in four digits, with a sign before the year 0.
#[derive(Clone, Copy)]
pub(crate) struct Year(pub i16);

impl fmt::Display for Year {
    ghost output = { λ y. Some (year_text y.0) };

    fn fmt<W: fmt::Write>(&self, f: &mut fmt::Formatter<W>) -> fmt::Result {
        if self.0 < 0 {
            f.write_str("-")?;
        }
        let year = self.0.unsigned_abs();
        write!(f, "{}{}", TwoDigits(year / 100), TwoDigits(year % 100))
    }
}
