//! The lines of output that the driver adds itself, that a line is bad and that the input is too long, and
//! the end of any line; and bytes to a sink: all of a text, or a prefix of it where a write fails.
//!
//! Where an allocation fails, a part of a line may stand at the end of the text.
ghost use Rattle.std.specs.Prelude.{◌≡◌, ◌++◌, ◌∷◌, OnOk, OnErr, IsOk, is_err, [], codes, decimal};
ghost use Rattle.std.specs.Io.KnownBytes.{Appends};
ghost use Rattle.sign_base.specs.Bytes.{newline};
ghost use Rattle.sign_io.specs.Faults.{CountsFault};
ghost use Rattle.signctl_driver.specs.Output.{AppendsPrefix, too_much_line};

use itoa::Buffer;
use sign_base::NoMemory;
use sign_io::{Failed, Sink};

/// Begins the line that names a bad line by its number, up to its cause.
pub(crate) fn begin_bad_line(text: &mut Vec<u8>, number: u64) -> Result<(), NoMemory<()>>
    ensures { OnOk result
        (text.new.items ≡ text.old.items ++ (codes "line " ++ (decimal number ++ codes ": "))) }
{
    text.extend_from_slice(b"line ")?;
    text.extend_from_slice(Buffer::new().format(number).as_bytes())?;
    text.extend_from_slice(b": ")?;
    Ok(())
}

/// Ends a line of the text.
pub fn end_line(text: &mut Vec<u8>) -> Result<(), NoMemory<()>>
    ensures { OnOk result (text.new.items ≡ text.old.items ++ newline ∷ []) }
{
    text.push(b'\n')?;
    Ok(())
}

/// Adds the line that says that the input is too long.
pub(crate) fn push_too_much(text: &mut Vec<u8>) -> Result<(), NoMemory<()>>
    ensures { OnOk result (text.new.items ≡ text.old.items ++ too_much_line) }
{
    text.extend_from_slice(b"input too long\n")?;
    Ok(())
}

/// Writes all of `text`. After `Failed` the sink holds a prefix of it, and no write was tried again.
pub fn write_all<D: Sink>(sink: &mut D, text: &[u8]) -> Result<(), Failed>
    ensures ok { OnOk result (Appends (D.holds sink.old) (D.holds sink.new) text.now) }
    ensures err { OnErr result (AppendsPrefix (D.holds sink.old) (D.holds sink.new) text.now) }
    ensures nothing { text.now ≡ [] → IsOk result }
    ensures faults { CountsFault (is_err result) (D.faults sink.old) (D.faults sink.new) }
{
    let mut rest = text;
    while !rest.is_empty() {
        let n = sink.write(rest)?;
        rest = rest.split_at(n).1;
    }
    Ok(())
}
