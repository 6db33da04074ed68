//! The date and the time of day of a moment in UTC, each field as it prints.
ghost use Rattle.std.specs.Prelude.{◌≡◌};
ghost use Rattle.jiff_core.specs.Weekday.{monday_zero};
ghost use Rattle.sign_time.specs.Calendar.{IsFourDigitYear, civil_of};
ghost use Rattle.sign_time.specs.CivilShown.{ShowsCivil, PrintsCivil};
ghost use Rattle.sign_time.specs.MomentText.{weekday_name, month_name};

use crate::digits::{TwoDigits, Year};
use jiff::civil::{DateTime, Weekday};
use jiff::tz::Offset;
use sign_base::Timestamp;

/// What a calendar and a clock in UTC show.
#[derive(Clone, Copy)]
pub(crate) struct CivilFields {
    pub year: Year,
    pub month: TwoDigits,
    pub month_name: &'static str,
    pub day: TwoDigits,
    pub weekday: &'static str,
    pub hour: TwoDigits,
    pub minute: TwoDigits,
    pub second: TwoDigits,
}

impl CivilFields {
    pub(crate) fn of(timestamp: Timestamp) -> CivilFields
        ensures { IsFourDigitYear timestamp → PrintsCivil result (civil_of timestamp) }
    {
        let shown = shown(timestamp);
        let month = TwoDigits::of(shown.month());
        CivilFields {
            year: Year(shown.year()),
            month,
            month_name: month_name(month.0),
            day: TwoDigits::of(shown.day()),
            weekday: weekday_name(shown.weekday()),
            hour: TwoDigits::of(shown.hour()),
            minute: TwoDigits::of(shown.minute()),
            second: TwoDigits::of(shown.second()),
        }
    }
}

fn shown(timestamp: Timestamp) -> DateTime
    ensures { IsFourDigitYear timestamp → ShowsCivil result (civil_of timestamp) }
{
    let instant = jiff::Timestamp::from_nanosecond(timestamp.as_nanos()).unwrap();
    Offset::UTC.to_datetime(instant)
}

fn weekday_name(weekday: Weekday) -> &'static str
    ensures { result.now ≡ weekday_name (monday_zero weekday) }
{
    match weekday {
        Weekday::Monday => "Mon",
        Weekday::Tuesday => "Tue",
        Weekday::Wednesday => "Wed",
        Weekday::Thursday => "Thu",
        Weekday::Friday => "Fri",
        Weekday::Saturday => "Sat",
        Weekday::Sunday => "Sun",
    }
}

fn month_name(month: u16) -> &'static str
    ensures { result.now ≡ month_name month }
{
    match month {
        1 => "Jan",
        2 => "Feb",
        3 => "Mar",
        4 => "Apr",
        5 => "May",
        6 => "Jun",
        7 => "Jul",
        8 => "Aug",
        9 => "Sep",
        10 => "Oct",
        11 => "Nov",
        12 => "Dec",
        _ => "",
    }
}
