//! Lines of an input, read in pieces as a source gives them. Nothing else knows of pieces, buffers and
//! limits: a line has at most `LINE_LIMIT` bytes, and only the first `INPUT_LIMIT` bytes of an input
//! are looked at.
ghost use Rattle.std.specs.Prelude.{◌≡◌, ◌↔◌, [], None, Some, Err, IfOk, IsTrue, codes};
ghost use Rattle.std.specs.Fmt.{WritesOnOk, WritesStyledOnOk};
ghost use Rattle.std.specs.Borrow.{sem};
ghost use Rattle.sign_io.specs.Faults.{CountsFault};
ghost use Rattle.sign_io.specs.LineInput.{taken, NeedsRead};
ghost use Rattle.sign_io.specs.LineReader.{AnswersNext, is_fault};
ghost use Rattle.sign_io.specs.Next.{answer_of, Leaves};

use crate::line_buffer::LineBuffer;
pub use crate::line_buffer::{INPUT_LIMIT, LINE_LIMIT};
use crate::{InputEnd, Source};
use sign_base::NoMemory;
use std::alloc::Global;
use std::fmt;
use std::marker::Model;

/// What is next of an input. `Debug` shows nothing of a line.
#[derive(Drop)]
pub enum Next<'a> {
    /// A line, without its newline. The last line may have had none.
    Line(&'a [u8]),
    /// The next line has more than `LINE_LIMIT` bytes.
    TooLong,
    /// The input has more than `INPUT_LIMIT` bytes, and no further line ends within these.
    TooMuch,
    /// All lines were handed out.
    End,
    /// A read failed, and no further line was whole.
    Fault,
}

impl fmt::Debug for Next<'_> {
    ghost use Rattle.sign_io.specs.NextShown.{next_text};

    ghost debug_output = { λ next. Some (next_text next) };

    fn fmt<W: fmt::Write>(&self, f: &mut fmt::Formatter<W>) -> fmt::Result
        ensures writes { WritesOnOk W.write_str_gives f.old result (next_text self.now) f.new }
        ensures styled { WritesStyledOnOk W.write_str_gives f.old result (next_text self.now) f.new }
    {
        f.write_str(match self {
            Next::Line(_) => "Line(***)",
            Next::TooLong => "TooLong",
            Next::TooMuch => "TooMuch",
            Next::End => "End",
            Next::Fault => "Fault",
        })
    }
}

/// A reader of lines. It takes a buffer once, and no memory for a line. `Debug` shows nothing of what it
/// holds.
#[derive(Drop)]
pub struct LineReader {
    lines: LineBuffer,
}

impl Model for LineReader {
    ghost use Rattle.sign_io.specs.LineInput.{LineInput};

    ghost Value = { LineInput };

    ghost view = { λ r. r.lines.input };
}

impl LineReader {
    /// A reader that has taken nothing of its input.
    pub fn new(alloc: Global) -> Result<LineReader, NoMemory<()>>
        ensures { IfOk result (λ r. r ≡ record { handed = 0; held = []; closed = None }) }
    {
        Ok(LineReader {
            lines: LineBuffer::new(alloc)?,
        })
    }

    /// The number of bytes taken so far.
    pub fn taken(&self) -> u64
        ensures { result ≡ taken self.now }
    {
        self.lines.taken()
    }

    /// Whether the next call of `next` has to read. Otherwise a whole line is held, or too many bytes
    /// for one, or the reader has closed.
    pub fn needs_read(&self) -> bool
        ensures { IsTrue result ↔ NeedsRead self.now }
    {
        self.lines.needs_read()
    }

    /// What is next of the input. It reads only where `needs_read` says so, until a line is whole or
    /// there is none. Any answer but a line closes the reader: it answers the same from then on, and
    /// reads no more.
    pub fn next<S: Source>(&mut self, source: &mut S) -> Next<'_>
        ensures* answer { sem 𝓛 (Leaves self.entry (λ new.
            AnswersNext self.old (S.left source.old) (S.left source.new) (answer_of result) new)) }
        // A failed read is one fault, and any other answer comes with none.
        ensures faults { self.old.closed ≡ None
            → CountsFault (is_fault (answer_of result)) (S.faults source.old) (S.faults source.new) }
        ensures still { (NeedsRead self.old → ⊥) → source.new ≡ source.old }
    {
        match self.lines.advance(source) {
            Ok(()) => Next::Line(self.lines.line()),
            Err(close) => no_line(close),
        }
    }
}

impl fmt::Debug for LineReader {
    ghost debug_output = { λ _. Some (codes "LineReader(***)") };

    fn fmt<W: fmt::Write>(&self, f: &mut fmt::Formatter<W>) -> fmt::Result
        ensures writes { WritesOnOk W.write_str_gives f.old result (codes "LineReader(***)") f.new }
        ensures styled { WritesStyledOnOk W.write_str_gives f.old result (codes "LineReader(***)") f.new }
    {
        f.write_str("LineReader(***)")
    }
}

/// The answer of a reader that closed.
fn no_line<'a>(why: InputEnd) -> Next<'a>
    ensures { answer_of result ≡ Err why }
{
    match why {
        InputEnd::TooLong => Next::TooLong,
        InputEnd::TooMuch => Next::TooMuch,
        InputEnd::End => Next::End,
        InputEnd::Fault => Next::Fault,
    }
}
