//! The command `sigv4`: heads signed with AWS Signature Version 4, line by line.
ghost use Rattle.signctl_by_line.specs.Sigv4Reading.{sigv4_item_of};
ghost use Rattle.signctl_by_line.specs.Sigv4Answers.{sigv4_answer};

use crate::sigv4_answer::push_answer;
use crate::{EachLine, Sigv4Item, read_sigv4_line};
use line_words::ReadError;
use sign_base::NoMemory;
use sign_request::HeaderSeeds;
use sigv4_core::KeptKey;
use std::alloc::Global;

/// The command `sigv4`. It has no debug form.
///
/// It keeps the signing key of the last line that needed one, with the secret of that line, so that a line
/// with the same credential, scope and day takes one HMAC in place of five. No answer depends on it.
#[derive(Drop)]
pub struct Sigv4Command {
    keys: HeaderSeeds,
    kept: KeptKey,
}

impl Sigv4Command {
    /// The names of headers come from outside, so these keys are handed on, for the map that a head is tested
    /// by which has more headers than one may have names. No line has so many, and no answer depends on the
    /// keys.
    pub fn new(keys: HeaderSeeds) -> Sigv4Command {
        Sigv4Command {
            keys,
            kept: KeptKey::new(),
        }
    }
}

impl EachLine for Sigv4Command {
    type Item = Sigv4Item;

    ghost item_of = { sigv4_item_of };

    ghost answer_to = { sigv4_answer };

    fn read(alloc: Global, line: &[u8]) -> Result<Sigv4Item, ReadError> {
        read_sigv4_line(alloc, line)
    }

    fn answer(
        &mut self,
        alloc: Global,
        item: &Sigv4Item,
        text: &mut Vec<u8>,
    ) -> Result<(), NoMemory<()>> {
        push_answer(alloc, self.keys, &mut self.kept, item, text)
    }
}
