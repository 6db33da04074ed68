//! The steps of a reader of lines, each of which leaves the line that it hands out in the window. The
//! next newline is known at any time, so each byte is searched once.
ghost use Rattle.std.specs.Prelude.{◌≡◌, ◌↔◌, ◌<◌, ◌≤◌, ◌-◌, [], ℕ, List, Option, None};
ghost use Rattle.std.specs.Prelude.{false, IfOk, IsTrue, is_err, length, take, drop};
ghost use Rattle.std.specs.List.{position_or_len};
ghost use Rattle.std.specs.Io.KnownBytes.{IsAtEnd};
ghost use Rattle.sign_io.specs.Faults.{CountsFault};
ghost use Rattle.sign_io.specs.Lines.{is_newline, line_limit, input_limit};
ghost use Rattle.sign_io.specs.LineInput.{taken, NeedsRead, looked_at, closed_by, IsWithinLimit};
ghost use Rattle.sign_io.specs.LineReader.{AnswersNext, Answers, GivesLine, is_fault};
ghost use Rattle.sign_io.specs.Window.{ReadsPiece};
ghost use Rattle.sign_io.specs.LineBuffer.{step_answer, Fills, is_failed};

use crate::window::Window;
use crate::{Failed, InputEnd, Source};
use memchr::memchr;
use sign_base::NoMemory;
use std::alloc::Global;
use std::marker::Model;

/// The most bytes of a line, without its newline.
pub const LINE_LIMIT: usize = 65_536;

/// The most bytes of an input that are looked at.
pub const INPUT_LIMIT: u64 = 67_108_864;

#[derive(Drop)]
pub(crate) struct LineBuffer {
    window: Window,
    handed: u64,
    /// The number of held bytes before the first newline that is looked at, or of all that are.
    line_len: usize,
    closed: Option<InputEnd>,
}

impl Model for LineBuffer {
    ghost use Rattle.std.specs.Prelude.{◌≡◌, ◌≤◌, ◌-◌, ◌+◌, length, take};
    ghost use Rattle.std.specs.List.{position_or_len};
    ghost use Rattle.sign_io.specs.Lines.{is_newline, line_limit, input_limit};
    ghost use Rattle.sign_io.specs.LineBuffer.{BufferedInput};

    ghost Value = { BufferedInput };

    ghost view = { λ b. record {
      line = b.window.line;
      input = record { handed = b.handed; held = b.window.held; closed = b.closed };
    } };

    ghost invariant = { λ b. (b.handed ≤ input_limit) × (b.handed + length b.window.held ≤ input_limit + 1)
        × (b.line_len ≡ position_or_len is_newline (take (input_limit - b.handed) b.window.held)) };
}

/// How the reading of a line went.
#[derive(Clone, Copy, Debug, PartialEq, Eq)]
pub(crate) enum ReadOutcome {
    /// No further read is needed.
    Ready,
    /// A read gave nothing.
    AtEnd,
    /// A read failed.
    Failed,
}

impl LineBuffer {
    pub(crate) fn new(alloc: Global) -> Result<LineBuffer, NoMemory<()>>
        ensures { IfOk result
            (λ b. b ≡ record { line = []; input = record { handed = 0; held = []; closed = None } }) }
    {
        Ok(LineBuffer {
            window: Window::new(alloc)?,
            handed: 0,
            line_len: 0,
            closed: None,
        })
    }

    /// The line that was handed out last.
    pub(crate) fn line(&self) -> &[u8]
        ensures { result.now ≡ self.now.line }
    {
        self.window.line()
    }

    /// The number of bytes taken so far.
    pub(crate) fn taken(&self) -> u64
        ensures { result ≡ taken self.now.input }
    {
        self.handed + self.window.held().len() as u64
    }

    /// Whether a step has to read.
    pub(crate) fn needs_read(&self) -> bool
        ensures { IsTrue result ↔ NeedsRead self.now.input }
    {
        if self.closed.is_some() {
            return false;
        }
        if self.taken() > INPUT_LIMIT {
            return false;
        }
        self.line_len == self.window.held().len() && self.line_len <= LINE_LIMIT
    }

    /// Hands out the next line, which then stands in the window, or closes.
    pub(crate) fn advance<S: Source>(&mut self, source: &mut S) -> Result<(), InputEnd>
        ensures answer { AnswersNext self.old.input (S.left source.old) (S.left source.new)
            (step_answer result self.new.line) self.new.input }
        ensures faults { self.old.input.closed ≡ None
            → CountsFault (is_fault (step_answer result self.new.line)) (S.faults source.old)
            (S.faults source.new) }
        ensures still { (NeedsRead self.old.input → ⊥) → source.new ≡ source.old }
    {
        if let Some(why) = self.closed {
            return Err(why);
        }
        match self.fill(source) {
            ReadOutcome::Ready => self.hand_out(),
            ReadOutcome::AtEnd => self.finish(),
            ReadOutcome::Failed => self.close(InputEnd::Fault),
        }
    }

    /// Reads until no further read is needed.
    fn fill<S: Source>(&mut self, source: &mut S) -> ReadOutcome
        requires { self.old.input.closed ≡ None }
        ensures filled { Fills self.old.input (S.left source.old) (S.left source.new) result self.new.input }
        ensures faults { CountsFault (is_failed result) (S.faults source.old) (S.faults source.new) }
        ensures still { (NeedsRead self.old.input → ⊥) → source.new ≡ source.old }
    {
        while self.needs_read() {
            match self.read(source) {
                Ok(0) => return ReadOutcome::AtEnd,
                Ok(_) => {}
                Err(_) => return ReadOutcome::Failed,
            }
        }
        ReadOutcome::Ready
    }

    /// Reads a piece, with the room that the window and the limit leave for it.
    fn read<S: Source>(&mut self, source: &mut S) -> Result<usize, Failed>
        requires { NeedsRead self.old.input }
        ensures piece { ReadsPiece (S.left source.old)
            (S.left source.new) self.old.input.held self.new.input.held result }
        ensures same { self.new.input ≡ record self.old.input { held = self.new.input.held } }
        ensures faults { CountsFault (is_err result) (S.faults source.old) (S.faults source.new) }
    {
        let len = self.window.held().len();
        let most = INPUT_LIMIT + 1 - self.taken();
        let n = self.window.read(source, most as usize)?;
        let looked_at = within_limit(self.window.held(), self.handed);
        self.line_len = len + line_len(looked_at, len);
        Ok(n)
    }

    /// The held bytes that are looked at.
    fn looked_at(&self) -> &[u8]
        ensures { result.now ≡ looked_at self.now.input }
    {
        within_limit(self.window.held(), self.handed)
    }

    /// Hands out the line that is whole, or closes where there is none.
    fn hand_out(&mut self) -> Result<(), InputEnd>
        requires unclosed { self.old.input.closed ≡ None }
        requires ready { NeedsRead self.old.input → ⊥ }
        ensures answer { (left : Option (List ℕ))
            → Answers self.old.input left (step_answer result self.new.line) self.new.input }
        ensures within { IsWithinLimit self.new.input }
        ensures no_fault { is_fault (step_answer result self.new.line) ≡ false }
    {
        if self.line_len > LINE_LIMIT {
            return self.close(InputEnd::TooLong);
        }
        if self.line_len == self.looked_at().len() {
            return self.close(InputEnd::TooMuch);
        }
        self.cut_line();
        Ok(())
    }

    /// Hands out the line that a newline ends.
    fn cut_line(&mut self)
        requires unclosed { self.old.input.closed ≡ None }
        requires whole { position_or_len is_newline (looked_at self.old.input) <
            length (looked_at self.old.input) }
        requires fits { position_or_len is_newline (looked_at self.old.input) ≤ line_limit }
        ensures line { GivesLine self.old.input self.new.line self.new.input }
        ensures within { IsWithinLimit self.new.input }
    {
        let len = self.line_len;
        self.line_len = line_len(self.looked_at(), len + 1);
        self.window.hand_out(len, len + 1);
        self.handed += len as u64 + 1;
    }

    /// Hands out all that is held as the last line, where there is some, and closes.
    fn finish(&mut self) -> Result<(), InputEnd>
        requires { NeedsRead self.old.input }
        ensures answer { (left : Option (List ℕ)) → IsAtEnd left
            → Answers self.old.input left (step_answer result self.new.line) self.new.input }
        ensures within { IsWithinLimit self.new.input }
        ensures no_fault { is_fault (step_answer result self.new.line) ≡ false }
    {
        let len = self.window.held().len();
        if len == 0 {
            return self.close(InputEnd::End);
        }
        self.window.hand_out(len, len);
        self.handed += len as u64;
        self.line_len = 0;
        self.closed = Some(InputEnd::End);
        Ok(())
    }

    fn close(&mut self, why: InputEnd) -> Result<(), InputEnd>
        ensures answer { result ≡ Err why }
        ensures closed { self.new.input ≡ closed_by self.old.input why }
        ensures within { IsWithinLimit self.new.input }
    {
        self.closed = Some(why);
        Err(why)
    }
}

/// Those bytes that are looked at, after so many of the input.
fn within_limit(bytes: &[u8], before: u64) -> &[u8]
    requires { before ≤ input_limit }
    ensures { result.now ≡ take (input_limit - before) bytes.now }
{
    let limit = (INPUT_LIMIT - before) as usize;
    &bytes[..limit.min(bytes.len())]
}

/// The number of bytes after the first `from` of them, up to a newline or to their end.
fn line_len(bytes: &[u8], from: usize) -> usize
    requires { from ≤ length bytes.now }
    ensures { result ≡ position_or_len is_newline (drop from bytes.now) }
{
    let rest = &bytes[from..];
    memchr(b'\n', rest).unwrap_or(rest.len())
}
