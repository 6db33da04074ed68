//! Texts that grow at their end.
//!
//! Out of memory comes only where the text has not the room for all that is to be added. Then what stood
//! in the text still stands in it, and a prefix of what was to be added may stand after it.

ghost use Rattle.std.specs.Prelude.{◌∷◌, decimal};
ghost use Rattle.line_words.specs.Bytes.{space};
ghost use Rattle.line_words.specs.Printing.{Prints};

use itoa::Buffer;
use sign_base::NoMemory;

pub fn push(text: &mut Vec<u8>, bytes: &[u8]) -> Result<(), NoMemory<()>>
    ensures { Prints text.old text.new result bytes.now }
{
    match text.extend_from_slice(bytes) {
        Ok(()) => Ok(()),
        Err(_) => Err(NoMemory { back: () }),
    }
}

pub fn push_word(text: &mut Vec<u8>, word: &[u8]) -> Result<(), NoMemory<()>>
    ensures { Prints text.old text.new result (space ∷ word.now) }
{
    push(text, b" ")?;
    push(text, word)
}

pub fn push_number(text: &mut Vec<u8>, number: u64) -> Result<(), NoMemory<()>>
    ensures { Prints text.old text.new result (space ∷ decimal number) }
{
    push_word(text, Buffer::new().format(number).as_bytes())
}
