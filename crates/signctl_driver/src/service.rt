//! A command in the middle of an input, with the answers that wait to be written.
ghost use Rattle.std.specs.Prelude.{◌≡◌, ◌++◌, ◌∷◌, ◌+◌, ◌<◌, ◌≤◌, [], List, ℕ, Ok, Err, Some, None, true};
ghost use Rattle.std.specs.Prelude.{length, codes, decimal, OnOk, OnErr, IfOk, IfSome, IsOk, is_err, false};
ghost use Rattle.std.specs.Io.KnownBytes.{Appends};
ghost use Rattle.sign_io.specs.Faults.{CountsFault};
ghost use Rattle.sign_io.specs.LineReader.{is_fault};
ghost use Rattle.sign_io.specs.Lines.{line_limit, input_limit};
ghost use Rattle.signctl_driver.specs.Command.{BadLine, blamed};
ghost use Rattle.signctl_driver.specs.LinesRead.{reading_of, too_long_line};
ghost use Rattle.signctl_driver.specs.Output.{bad_line, AppendsPrefix};
ghost use Rattle.signctl_driver.specs.LineOutcome.{Good, Ends, line_outcome};
ghost use Rattle.sign_io.specs.Next.{answer_of};
ghost use Rattle.signctl_driver.specs.Status.{is_write_fault, FinishesBy};

use crate::command::LineCommand;
use crate::output::{begin_bad_line, end_line, push_too_much, write_all};
use crate::status::Status;
use sign_base::NoMemory;
use sign_io::{Failed, Next, Sink};
use std::alloc::Global;

/// More bytes of answers than these do not wait for the next read.
const WAITING_LIMIT: usize = 65_536;

/// A command, the number of lines that it has answered, and the answers that are not written yet.
#[derive(Drop)]
pub(crate) struct Service<C> {
    pub command: C,
    pub lines: u64,
    pub text: Vec<u8>,
}

impl<C: LineCommand> Service<C> {
    ghost use Rattle.signctl_driver.specs.Serving.{HasServed};

    /// A command before the first line.
    pub fn new(alloc: Global, command: C) -> Service<C>
        requires { C.represents command [] }
        ensures served { HasServed C.represents result [] }
        ensures text { result.text.items ≡ [] }
    {
        Service {
            command,
            lines: 0,
            text: Vec::new(alloc),
        }
    }

    /// Takes what the reader gave: adds the answer to a line, or what closes the output. Answers how
    /// the run ends there, if it does.
    pub fn take(&mut self, alloc: Global, next: Next<'_>) -> Result<Option<Status>, NoMemory<()>>
        requires served { (items : List C.Item) × HasServed C.represents self.old items
            × (length items ≤ input_limit) }
        requires line { IfOk (answer_of next)
            (λ line. (length line ≤ line_limit) × (self.old.lines < input_limit)) }
        ensures goes_on { result ≡ Ok None → (items : List C.Item) → HasServed C.represents self.old items
            → (item : C.Item) × (line_outcome C.command items (answer_of next.entry) ≡ Good item)
            × HasServed C.represents self.new (items ++ item ∷ [])
            × (self.new.text.items ≡ self.old.text.items ++ C.command.answer items item) }
        ensures ends { IfOk result (λ how. IfSome how (λ status. (items : List C.Item)
            → HasServed C.represents self.old items
            → (closing : List ℕ) × (line_outcome C.command items (answer_of next.entry) ≡ Ends status closing)
            × (self.new.text.items ≡ self.old.text.items ++ closing))) }
        ensures fault { is_fault (answer_of next.entry) ≡ true → IsOk result }
    {
        match next {
            Next::Line(line) => self.serve(alloc, line),
            Next::TooLong => self.refuse_too_long(),
            Next::TooMuch => {
                push_too_much(&mut self.text)?;
                Ok(Some(Status::Refused))
            }
            Next::End => match self.command.close(alloc, &mut self.text)? {
                Ok(()) => Ok(Some(Status::Done)),
                Err(why) => self.refuse(why),
            },
            Next::Fault => Ok(Some(Status::ReadFault)),
        }
    }

    /// Serves a line: adds its answer, or the line that names it, which ends the run.
    fn serve(&mut self, alloc: Global, line: &[u8]) -> Result<Option<Status>, NoMemory<()>>
        requires served { (items : List C.Item) × HasServed C.represents self.old items
            × (length items < input_limit) }
        requires fits { length line.now ≤ line_limit }
        ensures good { result ≡ Ok None → (items : List C.Item) → HasServed C.represents self.old items
            → (item : C.Item) × (reading_of C.command items line.now ≡ Ok item)
            × HasServed C.represents self.new (items ++ item ∷ [])
            × (self.new.text.items ≡ self.old.text.items ++ C.command.answer items item) }
        ensures bad { IfOk result (λ how. IfSome how (λ status. (items : List C.Item)
            → HasServed C.represents self.old items
            → (bad : BadLine) × (status ≡ Status.Refused) × (reading_of C.command items line.now ≡ Err bad)
            × (self.new.text.items ≡ self.old.text.items ++ bad_line bad))) }
    {
        match self.command.read(alloc, line)? {
            Ok(item) => {
                self.command.answer(alloc, item, &mut self.text)?;
                self.lines += 1;
                Ok(None)
            }
            Err(cause) => self.refuse(cause),
        }
    }

    /// Adds the line that says which line is bad, and why: the next one, or the one that the cause blames.
    /// It ends the run.
    fn refuse(&mut self, cause: C::Cause) -> Result<Option<Status>, NoMemory<()>>
        requires { (items : List C.Item) × HasServed C.represents self.old items
            × (length items ≤ input_limit) }
        ensures { IfOk result (λ how. (how ≡ Some Status.Refused)
            × ((items : List C.Item) → HasServed C.represents self.old items
            → self.new.text.items ≡
            self.old.text.items ++ bad_line (blamed C.command (length items + 1) cause))) }
    {
        let number = C::cause_line(&cause).unwrap_or(self.lines + 1);
        begin_bad_line(&mut self.text, number)?;
        C::push_cause(cause, &mut self.text)?;
        end_line(&mut self.text)?;
        Ok(Some(Status::Refused))
    }

    /// Adds the line that says that the next line is too long, which ends the run.
    fn refuse_too_long(&mut self) -> Result<Option<Status>, NoMemory<()>>
        requires { (items : List C.Item) × HasServed C.represents self.old items
            × (length items ≤ input_limit) }
        ensures { IfOk result (λ how. (how ≡ Some Status.Refused)
            × ((items : List C.Item) → HasServed C.represents self.old items
            → self.new.text.items ≡ self.old.text.items ++ bad_line (too_long_line (length items + 1)))) }
    {
        begin_bad_line(&mut self.text, self.lines + 1)?;
        self.text.extend_from_slice(b"too long")?;
        end_line(&mut self.text)?;
        Ok(Some(Status::Refused))
    }

    /// Writes the answers that wait, where `now` says so or where many wait. After `Failed` the sink
    /// holds a prefix of them.
    pub fn write_out<D: Sink>(&mut self, now: bool, sink: &mut D) -> Result<(), Failed>
        ensures ok { OnOk result ((part : List ℕ) × (self.old.text.items ≡ part ++ self.new.text.items)
            × Appends (D.holds sink.old) (D.holds sink.new) part) }
        ensures now { OnOk result (now ≡ true → self.new.text.items ≡ []) }
        ensures err { OnErr result (AppendsPrefix (D.holds sink.old) (D.holds sink.new) self.old.text.items) }
        ensures nothing { self.old.text.items ≡ [] → IsOk result }
        ensures faults { CountsFault (is_err result) (D.faults sink.old) (D.faults sink.new) }
        ensures same { self.new ≡ record self.old { text = self.new.text } }
    {
        if now || self.text.len() > WAITING_LIMIT {
            write_all(sink, self.text.as_slice())?;
            self.text.clear();
        }
        Ok(())
    }

    /// Writes all that waits, and answers how the run ended.
    pub fn finish<D: Sink>(mut self, status: Status, sink: &mut D) -> Status
        requires { is_write_fault status ≡ false }
        ensures written { FinishesBy status self.text.items (D.holds sink.old) (D.holds sink.new) result }
        ensures nothing { self.text.items ≡ [] → result ≡ status }
        ensures faults { CountsFault (is_write_fault result) (D.faults sink.old) (D.faults sink.new) }
    {
        match self.write_out(true, sink) {
            Ok(()) => status,
            Err(_) => Status::WriteFault,
        }
    }
}
