//! The command `hmac`: digests of bytes, line by line.
ghost use Rattle.signctl_by_line.specs.HmacReading.{hmac_item_of};
ghost use Rattle.signctl_by_line.specs.HmacAnswers.{hmac_answer};

use crate::hmac_answer::push_answer;
use crate::{EachLine, HmacItem, read_hmac_line};
use line_words::ReadError;
use sign_base::NoMemory;
use std::alloc::Global;

/// The command `hmac`.
#[derive(Clone, Copy, Debug)]
pub struct HmacCommand;

impl EachLine for HmacCommand {
    type Item = HmacItem;

    ghost item_of = { hmac_item_of };

    ghost answer_to = { hmac_answer };

    fn read(alloc: Global, line: &[u8]) -> Result<HmacItem, ReadError> {
        read_hmac_line(alloc, line)
    }

    fn answer(
        &mut self,
        alloc: Global,
        item: &HmacItem,
        text: &mut Vec<u8>,
    ) -> Result<(), NoMemory<()>> {
        push_answer(alloc, item, text)
    }
}
