//! Reading the date and the expiry of a link: what is read has to be printed the same.
ghost use Rattle.std.specs.Prelude.{◌≡◌, ◌≤◌, ◌+◌, IfOk, MatchOption, Some, None, if◌then◌else◌, bytes_eq};
ghost use Rattle.std.specs.Prelude.{length, string_bytes};
ghost use Rattle.jiff_core.specs.DateTime.{civil_nanos};
ghost use Rattle.sign_base.specs.Moment.{is_moment};
ghost use Rattle.sign_time.specs.MomentRead.{number_of, number_at};
ghost use Rattle.sigv4_presign.specs.LinkDate.{moment_of_text, expires_of_text};
ghost use Rattle.sigv4_presign.specs.PresignedLink.{is_expiry};
ghost use Rattle.sigv4_presign.specs.ShownDate.{HasDate, IsDateOf, HasTime, IsTimeOf, IsShown};

use jiff_core::civil::{Date, DateTime, Time};
use sign_base::{NoMemory, Timestamp};
use sign_time::FormatMoment;
use std::alloc::Global;

/// How long a date and time of ISO 8601 is, as `20130524T000000Z`.
const DATE_LEN: usize = 16;

/// How many digits the longest time has that a link may be good for.
const MOST_DIGITS: usize = 6;

/// The longest time that a link may be good for, in seconds: seven days.
pub(crate) const MOST_EXPIRES: u32 = 604_800;

/// The whole second that is printed as this text, if one is.
pub fn moment_of_text(alloc: Global, text: &[u8]) -> Result<Option<Timestamp>, NoMemory<()>>
    ensures { IfOk result (λ moment. moment ≡ moment_of_text text.now) }
{
    let Some(moment) = shown_moment(text) else {
        return Ok(None);
    };
    let printed = moment.format_iso8601(alloc)?;
    if !is_printed(&printed, text) {
        return Ok(None);
    }
    Ok(Some(moment))
}

/// The moment whose date and time the digits show, if the calendar and the clock have it.
fn shown_moment(text: &[u8]) -> Option<Timestamp>
    ensures { MatchOption result (moment_of_text text.now ≡ None) (IsShown text.now) }
{
    if text.len() != DATE_LEN {
        return None;
    }
    moment_at(DateTime {
        date: shown_date(text)?,
        time: shown_time(text)?,
    })
}

fn moment_at(shown: DateTime) -> Option<Timestamp>
    ensures { result ≡ (if is_moment (civil_nanos shown) then Some (civil_nanos shown) else None) }
{
    Timestamp::from_nanos(shown.to_nanosecond())
}

fn shown_date(text: &[u8]) -> Option<Date>
    requires { length text.now ≡ 16 }
    ensures { MatchOption result (¬ (HasDate text.now)) (IsDateOf text.now) }
{
    let (year, month, day) = (
        number_at(text, 0, 4),
        number_at(text, 4, 2),
        number_at(text, 6, 2),
    );
    if year > 9999 || month > 12 || day > 31 {
        return None;
    }
    Date::new(year as i16, month as i8, day as i8).ok()
}

fn shown_time(text: &[u8]) -> Option<Time>
    requires { length text.now ≡ 16 }
    ensures { MatchOption result (¬ (HasTime text.now)) (IsTimeOf text.now) }
{
    let (hour, minute, second) = (
        number_at(text, 9, 2),
        number_at(text, 11, 2),
        number_at(text, 13, 2),
    );
    if hour > 23 || minute > 59 || second > 59 {
        return None;
    }
    Time::new(hour as i8, minute as i8, second as i8, 0).ok()
}

/// The number of seconds that is printed as this text, if it is one that a link may be good for.
#[tactic(auto, unfolding(crate::specs::LinkDate::expires_of_text))]
pub(crate) fn expires_of_text(alloc: Global, text: &[u8]) -> Result<Option<u32>, NoMemory<()>>
    ensures { IfOk result (λ expires. expires ≡ expires_of_text text.now) }
{
    if text.len() > MOST_DIGITS {
        return Ok(None);
    }
    let expires = number_of(text);
    let printed = format!(in alloc; "{expires}")?;
    if !(is_printed(&printed, text) && is_expiry(expires)) {
        return Ok(None);
    }
    Ok(Some(expires))
}

fn is_printed(printed: &String, text: &[u8]) -> bool
    ensures { result ≡ bytes_eq (string_bytes printed.now) text.now }
{
    printed.as_bytes() == text
}

/// Whether a link may be good for so many seconds.
pub(crate) fn is_expiry(expires: u32) -> bool
    ensures { result ≡ is_expiry expires }
{
    expires > 0 && expires <= MOST_EXPIRES
}

/// The number in some places of a text.
fn number_at(text: &[u8], place: usize, count: usize) -> u32
    requires few { count ≤ 6 }
    requires within { place + count ≤ length text.now }
    ensures { result ≡ number_at place count text.now }
{
    number_of(&text[place..place + count])
}

/// The value of decimal digits. What is no digit counts as well; who calls compares the print.
fn number_of(digits: &[u8]) -> u32
    requires { length digits.now ≤ 6 }
    ensures { result ≡ number_of digits.now }
{
    let mut number = 0;
    for digit in digits {
        number = number * 10 + u32::from(digit.saturating_sub(b'0'));
    }
    number
}
