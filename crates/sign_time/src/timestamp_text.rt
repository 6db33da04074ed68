//! The four texts of a moment, in UTC. A year before 0 has a sign.
ghost use Rattle.std.specs.Prelude.{◌≡◌, IfOk};
ghost use Rattle.std.specs.String.{string_bytes};
ghost use Rattle.sign_time.specs.Calendar.{IsFourDigitYear, civil_of};
ghost use Rattle.sign_time.specs.MomentText.{date_text, iso8601_text, http_date_text, rfc3339_text};

use crate::civil::CivilFields;
use sign_base::{NoMemory, Timestamp};
use std::alloc::Global;

/// The texts of a moment, in UTC.
pub trait FormatMoment: Sized {
    /// The date, as `20220301`.
    fn format_date(self, alloc: Global) -> Result<String, NoMemory<()>>;

    /// The date and time of ISO 8601 without separators, as `20220301T081234Z`.
    fn format_iso8601(self, alloc: Global) -> Result<String, NoMemory<()>>;

    /// The date of HTTP (RFC 9110), as `Tue, 01 Mar 2022 08:12:34 GMT`.
    fn format_http_date(self, alloc: Global) -> Result<String, NoMemory<()>>;

    /// The date and time of RFC 3339 in UTC, as `2022-03-01T08:12:34Z`.
    fn format_rfc3339_zulu(self, alloc: Global) -> Result<String, NoMemory<()>>;
}

impl FormatMoment for Timestamp {
    fn format_date(self, alloc: Global) -> Result<String, NoMemory<()>>
        ensures { IsFourDigitYear self → IfOk result (λ text. string_bytes text ≡ date_text (civil_of self)) }
    {
        let c = CivilFields::of(self);
        Ok(format!(in alloc; "{}{}{}", c.year, c.month, c.day)?)
    }

    fn format_iso8601(self, alloc: Global) -> Result<String, NoMemory<()>>
        ensures { IsFourDigitYear self
            → IfOk result (λ text. string_bytes text ≡ iso8601_text (civil_of self)) }
    {
        let c = CivilFields::of(self);
        Ok(format!(in alloc;
            "{}{}{}T{}{}{}Z",
            c.year, c.month, c.day, c.hour, c.minute, c.second
        )?)
    }

    fn format_http_date(self, alloc: Global) -> Result<String, NoMemory<()>>
        ensures { IsFourDigitYear self
            → IfOk result (λ text. string_bytes text ≡ http_date_text (civil_of self)) }
    {
        let c = CivilFields::of(self);
        Ok(format!(in alloc;
            "{}, {} {} {} {}:{}:{} GMT",
            c.weekday, c.day, c.month_name, c.year, c.hour, c.minute, c.second
        )?)
    }

    fn format_rfc3339_zulu(self, alloc: Global) -> Result<String, NoMemory<()>>
        ensures { IsFourDigitYear self
            → IfOk result (λ text. string_bytes text ≡ rfc3339_text (civil_of self)) }
    {
        let c = CivilFields::of(self);
        Ok(format!(in alloc;
            "{}-{}-{}T{}:{}:{}Z",
            c.year, c.month, c.day, c.hour, c.minute, c.second
        )?)
    }
}
