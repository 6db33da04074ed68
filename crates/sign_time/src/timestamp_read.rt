//! Moments read from text, by the readers of `jiff` and within this crate's range.
ghost use Rattle.std.specs.Prelude.{◌≡◌, ◌↔◌, Some, IsOk, IsSome, IfOk, IfErr, option_map};
ghost use Rattle.jiff_core.specs.DateTime.{civil_nanos};
ghost use lib.Chars.{codes};
ghost use Rattle.sign_time.specs.Reading.{read_moment, read_rfc2822, read_civil, parse_message};
ghost use Rattle.sign_time.specs.Reading.{civil_parse_message, range_message, in_range};
ghost use Rattle.sign_base.specs.Refusal.{IsErrorOf};
ghost use Rattle.sign_base.specs.declared.error_kind.ErrorKind.TheVariants.{Unexpected};

use jiff::civil::DateTime;
use jiff::fmt::rfc2822;
use jiff::tz::Offset;
use sign_base::{Error, ErrorKind, Timestamp};
use std::alloc::Global;

/// Reads a moment from its text.
pub trait ReadMoment: Sized {
    /// An instant with its offset, as `2022-03-01T08:12:34Z` or `2022-03-01T08:12:34.00+00:00`.
    ///
    /// What does not read, or lies out of range, is `Unexpected`.
    fn parse(alloc: Global, s: &str) -> Result<Self, Error>;

    /// A date and time of RFC 2822, as `Sat, 13 Jul 2024 15:09:59 -0400`.
    ///
    /// What does not read, or lies out of range, is `Unexpected`.
    fn parse_rfc2822(alloc: Global, s: &str) -> Result<Self, Error>;

    /// A date and time with no offset, taken as UTC, as `2023-10-31 21:59:10.000000`.
    ///
    /// What does not read, or lies out of range, is `Unexpected`, with messages of their own.
    fn parse_datetime_utc(alloc: Global, s: &str) -> Result<Self, Error>;
}

impl ReadMoment for Timestamp {
    fn parse(alloc: Global, s: &str) -> Result<Timestamp, Error>
        ensures ok { IsOk result ↔ IsSome (read_moment s.now) }
        ensures value { IfOk result (λ t. read_moment s.now ≡ Some t) }
        ensures err { IfErr result (IsErrorOf Unexpected (parse_message s.now (codes "timestamp"))) }
    {
        let read = s.parse::<jiff::Timestamp>().ok();
        match within_range(read) {
            Some(timestamp) => Ok(timestamp),
            None => Err(parse_message(alloc, s, "timestamp")),
        }
    }

    fn parse_rfc2822(alloc: Global, s: &str) -> Result<Timestamp, Error>
        ensures ok { IsOk result ↔ IsSome (read_rfc2822 s.now) }
        ensures value { IfOk result (λ t. read_rfc2822 s.now ≡ Some t) }
        ensures err { IfErr result (IsErrorOf Unexpected (parse_message s.now (codes "rfc2822"))) }
    {
        let read = rfc2822::DateTimeParser::new()
            .parse_timestamp(s.as_bytes())
            .ok();
        match within_range(read.map(jiff::Timestamp::from_plain)) {
            Some(timestamp) => Ok(timestamp),
            None => Err(parse_message(alloc, s, "rfc2822")),
        }
    }

    fn parse_datetime_utc(alloc: Global, s: &str) -> Result<Timestamp, Error>
        ensures ok { IsOk result ↔ IsSome (read_civil s.now) }
        ensures value { IfOk result (λ t. read_civil s.now ≡ Some t) }
        ensures err { IfErr result (IsErrorOf Unexpected (civil_parse_message s.now)) }
    {
        let Ok(civil) = s.parse::<DateTime>() else {
            return Err(parse_message(alloc, s, "datetime"));
        };
        match in_utc(civil) {
            Some(timestamp) => Ok(timestamp),
            None => Err(range_message(alloc, s)),
        }
    }
}

/// The instant of `jiff`, where it lies in this crate's range.
fn within_range(instant: Option<jiff::Timestamp>) -> Option<Timestamp>
    ensures { result ≡ in_range (option_map (λ t. t.nanosecond) instant) }
{
    Timestamp::from_nanos(instant?.as_nanosecond())
}

/// The moment at which a clock in UTC shows the date and time.
fn in_utc(civil: DateTime) -> Option<Timestamp>
    ensures { result ≡ in_range (Some (civil_nanos civil)) }
{
    match Offset::UTC.to_timestamp(civil) {
        Ok(instant) => within_range(Some(instant)),
        Err(_) => None,
    }
}

/// The refusal of a text that does not read.
fn parse_message(alloc: Global, text: &str, into: &str) -> Error
    ensures { IsErrorOf Unexpected (parse_message text.now into.now) result }
{
    match format!(in alloc; "parse '{text}' into {into} failed") {
        Ok(message) => Error::of(ErrorKind::Unexpected, message),
        Err(_) => Error::out_of_memory(),
    }
}

/// The refusal of a date and time that reads and lies out of range.
fn range_message(alloc: Global, text: &str) -> Error
    ensures { IsErrorOf Unexpected (range_message text.now) result }
{
    match format!(in alloc; "convert '{text}' into timestamp failed") {
        Ok(message) => Error::of(ErrorKind::Unexpected, message),
        Err(_) => Error::out_of_memory(),
    }
}
