//! Bytes that can't stand for themselves, added to a text as `%` and two digits.

ghost use Rattle.std.specs.Prelude.{◌≡◌};
ghost use Rattle.line_words.specs.Classes.{has};
ghost use Rattle.line_words.specs.Escapes.{stands, byte_or_escape, with_escapes};
ghost use Rattle.line_words.specs.Printing.{Prints};

use crate::byte_class::{ByteClass, is_plain, split_prefix, upper_hex};
use crate::text::push;
use sign_base::NoMemory;

/// What is escaped beside the bytes that are not visible.
#[derive(Clone, Copy)]
pub enum Escaping {
    /// `%`, as in the value of a header.
    Value,
    /// `%` and `=`, as in a key or a value of a query.
    Pair,
}

/// Adds bytes, escaped where they have to be. What stands between two escapes is copied at once.
pub fn push_escaped(
    text: &mut Vec<u8>,
    escaping: Escaping,
    bytes: &[u8],
) -> Result<(), NoMemory<()>>
    ensures { Prints text.old text.new result (with_escapes (stands escaping) bytes.now) }
{
    let (run, mut rest) = split_prefix(class(escaping), bytes);
    push(text, run)?;
    while let [b, after @ ..] = rest {
        push_byte(text, escaping, *b)?;
        let (run, behind) = split_prefix(class(escaping), after);
        push(text, run)?;
        rest = behind;
    }
    Ok(())
}

fn push_byte(text: &mut Vec<u8>, escaping: Escaping, b: u8) -> Result<(), NoMemory<()>>
    ensures { Prints text.old text.new result (byte_or_escape (stands escaping) b) }
{
    if stands(escaping, b) {
        push(text, &[b])
    } else {
        push(text, &[b'%', upper_hex(b / 16), upper_hex(b % 16)])
    }
}

/// The class of the bytes that stand for themselves.
fn class(escaping: Escaping) -> ByteClass
    ensures { has result ≡ stands escaping }
{
    match escaping {
        Escaping::Value => ByteClass::Value,
        Escaping::Pair => ByteClass::Pair,
    }
}

/// Whether a byte stands for itself.
fn stands(escaping: Escaping, b: u8) -> bool
    ensures { result ≡ stands escaping b }
{
    match escaping {
        Escaping::Value => is_plain(b),
        Escaping::Pair => is_plain(b) && b != b'=',
    }
}
