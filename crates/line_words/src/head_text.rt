//! The words of a request head, added at the end of a text.

ghost use Rattle.std.specs.Prelude.{◌∷◌, map};
ghost use Rattle.line_words.specs.Bytes.{space};
ghost use Rattle.line_words.specs.Words.{spaced_words};
ghost use Rattle.line_words.specs.Heads.{field_word, head_words, version_word};
ghost use Rattle.line_words.specs.Printing.{Prints};

use crate::escape::{Escaping, push_escaped};
use crate::text::{push, push_word};
use sign_base::{Field, Head, NoMemory, Version};

/// Adds the words of a head, each after a space.
pub fn push_head(text: &mut Vec<u8>, head: &Head) -> Result<(), NoMemory<()>>
    ensures { Prints text.old text.new result (spaced_words (head_words head.now)) }
{
    push_word(text, head.method.as_slice())?;
    push_word(text, head.uri.as_slice())?;
    push_version(text, head.version)?;
    push_fields(text, head.headers.as_slice())
}

fn push_fields(text: &mut Vec<u8>, fields: &[Field]) -> Result<(), NoMemory<()>>
    ensures { Prints text.old text.new result (spaced_words (map field_word fields.now)) }
{
    for field in fields {
        push_field(text, field)?;
    }
    Ok(())
}

fn push_version(text: &mut Vec<u8>, version: Version) -> Result<(), NoMemory<()>>
    ensures { Prints text.old text.new result (space ∷ version_word version) }
{
    match version {
        Version::V09 => push_word(text, b"0.9"),
        Version::V10 => push_word(text, b"1.0"),
        Version::V11 => push_word(text, b"1.1"),
        Version::V2 => push_word(text, b"2"),
        Version::V3 => push_word(text, b"3"),
    }
}

fn push_field(text: &mut Vec<u8>, field: &Field) -> Result<(), NoMemory<()>>
    ensures { Prints text.old text.new result (space ∷ field_word field.now) }
{
    push_word(text, field.name.as_slice())?;
    push(text, b":")?;
    push_escaped(text, Escaping::Value, field.value.as_slice())
}
