//! The words of moments, added at the end of a text.

ghost use Rattle.std.specs.Prelude.{◌∷◌, ◌^◌, ◌<◌, ◌≤◌};
ghost use Rattle.line_words.specs.Bytes.{space};
ghost use Rattle.line_words.specs.Moments.{moment_word, time_word, plain_duration, fraction_digits};
ghost use Rattle.line_words.specs.Moments.{fraction_word, nanos_of_second};
ghost use Rattle.line_words.specs.Printing.{Prints};

use crate::ScriptVersion;
use crate::text::{push, push_word};
use itoa::Buffer;
use sign_base::{NoMemory, Timestamp};
use std::time::Duration;

/// The places of a fraction, down to nanoseconds.
const PLACES: u32 = 9;

/// Adds a moment, as this version spells it.
pub fn push_moment(
    text: &mut Vec<u8>,
    version: ScriptVersion,
    moment: Timestamp,
) -> Result<(), NoMemory<()>>
    ensures { Prints text.old text.new result (space ∷ moment_word version moment) }
{
    match version {
        ScriptVersion::One => push_word(text, Buffer::new().format(moment.as_second()).as_bytes()),
        ScriptVersion::Two => push_exact_moment(text, moment),
    }
}

fn push_exact_moment(text: &mut Vec<u8>, moment: Timestamp) -> Result<(), NoMemory<()>>
    ensures { Prints text.old text.new result (space ∷ moment_word ScriptVersion.Two moment) }
{
    let nanos = moment.as_nanos();
    push(text, b" ")?;
    if nanos < 0 {
        push(text, b"-")?;
    }
    push_time(
        text,
        ScriptVersion::Two,
        Duration::from_nanos_u128(nanos.unsigned_abs()),
    )
}

/// Adds some seconds, as this version spells them.
pub fn push_time(
    text: &mut Vec<u8>,
    version: ScriptVersion,
    time: Duration,
) -> Result<(), NoMemory<()>>
    ensures { Prints text.old text.new result (time_word version (plain_duration time)) }
{
    push(text, Buffer::new().format(time.as_secs()).as_bytes())?;
    match version {
        ScriptVersion::One => Ok(()),
        ScriptVersion::Two => push_fraction(text, time.subsec_nanos()),
    }
}

/// Adds a point and the fraction of a second, or nothing.
fn push_fraction(text: &mut Vec<u8>, nanos: u32) -> Result<(), NoMemory<()>>
    requires { nanos < nanos_of_second }
    ensures { Prints text.old text.new result (fraction_word nanos) }
{
    if nanos == 0 {
        return Ok(());
    }
    push(text, b".")?;
    push_digits(text, PLACES, nanos)
}

/// Adds the digits of a fraction, down to the last that is not zero.
fn push_digits(text: &mut Vec<u8>, places: u32, n: u32) -> Result<(), NoMemory<()>>
    requires few { places ≤ 9 }
    requires below { n < 10 ^ places }
    ensures { Prints text.old text.new result (fraction_digits places n) }
{
    let mut places = places;
    let mut rest = n;
    while rest > 0 {
        places -= 1;
        let unit = 10u32.pow(places);
        push(text, &[b'0' + (rest / unit) as u8])?;
        rest %= unit;
    }
    Ok(())
}
