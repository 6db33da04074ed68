//! The command over lines that a command makes which answers each line by itself.
ghost use Rattle.std.specs.Prelude.{◌≡◌, false, List, Option, OnErr, IfOk};
ghost use Rattle.line_words.specs.Words.{is_silent};
ghost use Rattle.signctl_by_line.specs.LineByLine.{line_by_line};

use crate::EachLine;
use line_words::word::is_silent;
use line_words::{LineError, ReadError};
use sign_base::NoMemory;
use signctl_driver::LineCommand;
use std::alloc::Global;

/// A command that answers each line by itself, as a command over lines. It keeps nothing of the lines so far.
#[derive(Drop)]
pub struct LineByLine<C>(pub C);

impl<C: EachLine> LineCommand for LineByLine<C> {
    /// What a line says: nothing, or an item.
    type Item = Option<C::Item>;

    type Cause = LineError;

    ghost command = { line_by_line C.item_of C.answer_to };

    ghost represents = { λ command items. Unit {0} };

    fn read(
        &self,
        alloc: Global,
        line: &[u8],
    ) -> Result<Result<Option<C::Item>, LineError>, NoMemory<()>>
        ensures reading { IfOk result (λ reading. (items : List (Option C.Item)) → Unit {0}
            → reading ≡ (line_by_line C.item_of C.answer_to).read items line.now) }
        // A line that says nothing takes no memory.
        ensures memory { OnErr result (is_silent line.now ≡ false) }
    {
        if is_silent(line) {
            return Ok(Ok(None));
        }
        match C::read(alloc, line) {
            Ok(item) => Ok(Ok(Some(item))),
            Err(ReadError::NotUnderstood) => Ok(Err(LineError::NotUnderstood)),
            Err(ReadError::OutOfMemory) => Err(NoMemory { back: () }),
        }
    }

    fn answer(
        &mut self,
        alloc: Global,
        item: Option<C::Item>,
        text: &mut Vec<u8>,
    ) -> Result<(), NoMemory<()>> {
        match item {
            None => Ok(()),
            Some(item) => self.0.answer(alloc, &item, text),
        }
    }

    fn push_cause(cause: LineError, text: &mut Vec<u8>) -> Result<(), NoMemory<()>> {
        Ok(text.extend_from_slice(cause.as_str().as_bytes())?)
    }

    fn cause_line(_cause: &LineError) -> Option<u64> {
        None
    }

    fn close(
        &self,
        _alloc: Global,
        _text: &mut Vec<u8>,
    ) -> Result<Result<(), LineError>, NoMemory<()>> {
        Ok(Ok(()))
    }
}
