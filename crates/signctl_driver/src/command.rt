//! What the driver asks of a command over lines: how a line reads, and what is answered to it.
//!
//! A new command is an item type, a step and a printer. Its meaning is the record `Command`, of five
//! functions of lists: what a line reads as after the items of the lines before it, the text of a
//! cause and the line that it blames, the answer to an item, and the closing. Reading, the numbers of lines,
//! the limits, faults and the order of reads and writes are the driver's, and so are the proofs about them.
ghost use Rattle.std.specs.Prelude.{◌≡◌, ◌++◌, ◌∷◌, ◌<◌, [], List, length, OnOk, IfOk};
ghost use Rattle.sign_io.specs.Lines.{input_limit};
ghost use Rattle.signctl_driver.specs.Command.{Command, ClosesBy, MayFollow};

use sign_base::NoMemory;
use std::alloc::Global;

/// A command over lines, with what it keeps of the lines so far. What a method adds to a text it adds
/// at its end. Where an allocation fails, a part of that may stand there, and the command is not used
/// again.
pub trait LineCommand: Drop {
    /// What a good line says, also a line that is answered by nothing.
    type Item: Drop;

    /// Why a line is bad.
    type Cause: Drop;

    /// What the command means.
    ghost command: { Command Self.Item Self.Cause };

    /// The lines that it has answered, by their items.
    ghost represents: { Self → List Self.Item → Type 0 };

    /// What a line says after the lines so far, or why it is bad. The line has no newline and is not
    /// too long.
    fn read(
        &self,
        alloc: Global,
        line: &[u8],
    ) -> Result<Result<Self::Item, Self::Cause>, NoMemory<()>>
        ensures { IfOk result (λ reading. (items : List Self.Item) → represents self.now items
            → reading ≡ command.read items line.now) };

    /// Answers an item that a line was read as. That line is one of the lines so far from then on.
    fn answer(
        &mut self,
        alloc: Global,
        item: Self::Item,
        text: &mut Vec<u8>,
    ) -> Result<(), NoMemory<()>>
        requires { (items : List Self.Item) × represents self.old items × MayFollow command items item
            × (length items < input_limit) }
        ensures { OnOk result
            ((items : List Self.Item) → represents self.old items → MayFollow command items item
            → represents self.new (items ++ item ∷ [])
            × (text.new.items ≡ text.old.items ++ command.answer items item)) };

    /// Says why a line is bad, in words.
    fn push_cause(cause: Self::Cause, text: &mut Vec<u8>) -> Result<(), NoMemory<()>>
        ensures { OnOk result (text.new.items ≡ text.old.items ++ command.cause_text cause) };

    /// The number of the line that a cause blames, counted from 1, where that is an earlier one than the
    /// line, or the end, at which it shows.
    fn cause_line(cause: &Self::Cause) -> Option<u64>
        ensures { result ≡ command.cause_line cause.now };

    /// Closes the output, where all was read and no line was bad; or says why the end is bad, and adds
    /// nothing.
    fn close(
        &self,
        alloc: Global,
        text: &mut Vec<u8>,
    ) -> Result<Result<(), Self::Cause>, NoMemory<()>>
        ensures { IfOk result (λ closed. (items : List Self.Item) → represents self.now items
            → ClosesBy (command.closing items) closed text.old.items text.new.items) };
}
