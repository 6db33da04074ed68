//! Moments and durations, read from words of seconds.
ghost use Rattle.std.specs.Prelude.{◌≡◌, ◌+◌, ◌-◌, ◌*◌, ◌^◌, ◌<◌, ◌≤◌, length, pos, IsTrue, IfOk, IfSome};
ghost use Rattle.std.specs.Prelude.{option_map};
ghost use Rattle.std.specs.List.{position};
ghost use Rattle.std.specs.Duration.{as_nanos};
ghost use Rattle.line_words.specs.Bytes.{zero_digit, is_digit};
ghost use Rattle.line_words.specs.Moments.{moment_of, duration_of, time_of, point_in, is_point};
ghost use Rattle.line_words.specs.Moments.{fraction_of, plain_duration, last_second, nanos_of_second};
ghost use Rattle.line_words.specs.Readers.{Reads};

use crate::byte_class::is_digit;
use crate::read_error::NotUnderstood;
use crate::word::{parse_number, word_is};
use sign_base::Timestamp;
use std::time::Duration;

/// How a script spells moments and durations.
#[derive(Clone, Copy, Debug, PartialEq, Eq)]
pub enum ScriptVersion {
    /// In whole seconds.
    One,
    /// In seconds with a fraction, to the nanosecond. Its first line is `signctl 2`.
    Two,
}

const LAST_SECOND: u64 = 253_402_207_200;

/// The places of a fraction, down to nanoseconds.
const PLACES: u32 = 9;

/// The moment that a word spells in a script of this version.
pub fn parse_moment(version: ScriptVersion, word: &[u8]) -> Result<Timestamp, NotUnderstood>
    ensures { Reads (λ t. t) result (moment_of version word.now) }
{
    let since_1970 = parse_time(version, LAST_SECOND, word)?;
    Ok(moment_after(since_1970))
}

#[inline(always)]
fn moment_after(since_1970: Duration) -> Timestamp
    requires { as_nanos since_1970 < (last_second + 1) * nanos_of_second }
    ensures { result ≡ pos (as_nanos since_1970) }
{
    match Timestamp::from_nanos(since_1970.as_nanos() as i128) {
        Some(moment) => moment,
        None => unreachable!(),
    }
}

/// The duration that a word spells, which may be none.
pub fn parse_duration(
    version: ScriptVersion,
    word: &[u8],
) -> Result<Option<Duration>, NotUnderstood>
    ensures { Reads (option_map plain_duration) result (duration_of version word.now) }
{
    if word_is(word, b"-") {
        return Ok(None);
    }
    let time = parse_time(version, u64::MAX, word)?;
    Ok(Some(time))
}

/// The seconds that a word spells, up to a limit on whole ones.
#[inline(always)]
fn parse_time(version: ScriptVersion, limit: u64, word: &[u8]) -> Result<Duration, NotUnderstood>
    ensures value { Reads plain_duration result (time_of version limit word.now) }
    ensures fits { IfOk result (λ time. as_nanos time < (limit + 1) * nanos_of_second) }
{
    let Some(place) = point_in(version, word) else {
        return Ok(Duration::from_secs(parse_number(limit, word)?));
    };
    let (secs, _) = word.split_at(place);
    let (_, digits) = word.split_at(place + 1);
    let secs = parse_number(limit, secs)?;
    let nanos = parse_fraction(PLACES, digits)?;
    Ok(Duration::new(secs, nanos))
}

#[inline(always)]
fn point_in(version: ScriptVersion, word: &[u8]) -> Option<usize>
    ensures place { result ≡ point_in version word.now }
    ensures within { IfSome result (λ i. i < length word.now) }
{
    match version {
        ScriptVersion::One => None,
        ScriptVersion::Two => first_point(word),
    }
}

#[inline(always)]
fn first_point(word: &[u8]) -> Option<usize>
    ensures place { result ≡ position is_point word.now }
    ensures within { IfSome result (λ i. i < length word.now) }
{
    word.iter().position(|b| *b == b'.')
}

/// The fraction that digits spell, with so many places left.
#[tactic(auto, unfolding(crate::specs::Moments::fraction_of))]
fn parse_fraction(places: u32, digits: &[u8]) -> Result<u32, NotUnderstood>
    requires { places ≤ 9 }
    ensures value { Reads (λ n. n) result (fraction_of places digits.now) }
    ensures below { IfOk result (λ n. n < 10 ^ places) }
{
    let [digit, rest @ ..] = digits else {
        return Err(NotUnderstood);
    };
    if places == 0 || !is_digit(*digit) {
        return Err(NotUnderstood);
    }
    let here = count(*digit, places - 1);
    if rest.len() > 0 {
        Ok(here + parse_fraction(places - 1, rest)?)
    } else if here > 0 {
        Ok(here)
    } else {
        Err(NotUnderstood)
    }
}

/// What a digit counts, with so many places after it.
fn count(digit: u8, places: u32) -> u32
    requires digit { IsTrue (is_digit digit) }
    requires few { places ≤ 8 }
    ensures value { result ≡ (digit - zero_digit) * 10 ^ places }
    ensures below { result + 10 ^ places ≤ 10 ^ (places + 1) }
{
    u32::from(digit - b'0') * 10u32.pow(places)
}
