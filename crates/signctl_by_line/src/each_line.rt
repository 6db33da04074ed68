//! What a command is asked that answers each line by itself.
ghost use Rattle.std.specs.Prelude.{◌≡◌, ◌++◌, ℕ, List, Option, Some, OnOk};
ghost use Rattle.line_words.specs.Readers.{Gives};

use line_words::ReadError;
use sign_base::NoMemory;
use std::alloc::Global;

/// A command that answers each line by itself. It is asked only for lines that say something. It may keep
/// what saves work at a later line, and no answer depends on that.
pub trait EachLine: Drop {
    /// What a line says.
    type Item: Drop;

    /// The item that a line spells, if it spells one.
    ghost item_of: { List ℕ → Option Self.Item };

    /// The answer to an item.
    ghost answer_to: { Self.Item → List ℕ };

    /// The item that a line without its newline spells.
    fn read(alloc: Global, line: &[u8]) -> Result<Self::Item, ReadError>
        ensures { Gives (λ item. item) result (item_of line.now) };

    /// Adds the answer to an item that a line was read as. Where an allocation fails, a part of it may stand
    /// at the end of the text.
    fn answer(
        &mut self,
        alloc: Global,
        item: &Self::Item,
        text: &mut Vec<u8>,
    ) -> Result<(), NoMemory<()>>
        requires { (line : List ℕ) × (item_of line ≡ Some item.now) }
        ensures { OnOk result (text.new.items ≡ text.old.items ++ answer_to item.now) };
}
