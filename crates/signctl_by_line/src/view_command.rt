//! The command `view`: what a service signs of a request head, line by line.
ghost use Rattle.signctl_by_line.specs.ViewGrammar.{head_of_line};
ghost use Rattle.signctl_by_line.specs.ViewAnswers.{view_answer};

use crate::EachLine;
use crate::view_answer::push_answer;
use line_words::ReadError;
use line_words::head::parse_head_line;
use sign_base::{Head, NoMemory};
use sign_request::HeaderSeeds;
use std::alloc::Global;

/// The command `view`. The names of headers come from outside, so it has these keys, for the map that a head
/// is tested by which has more headers than one may have names. No line has so many, and no answer depends on
/// the keys.
#[derive(Clone, Copy, Debug)]
pub struct ViewCommand {
    pub keys: HeaderSeeds,
}

impl EachLine for ViewCommand {
    type Item = Head;

    ghost item_of = { head_of_line };

    ghost answer_to = { view_answer };

    fn read(alloc: Global, line: &[u8]) -> Result<Head, ReadError> {
        parse_head_line(alloc, line)
    }

    fn answer(
        &mut self,
        alloc: Global,
        head: &Head,
        text: &mut Vec<u8>,
    ) -> Result<(), NoMemory<()>> {
        push_answer(alloc, self.keys, head, text)
    }
}
