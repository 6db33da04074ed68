//! The text that a command answers an input with.
ghost use Rattle.std.specs.Prelude.{◌≡◌, None, MatchResult};
ghost use Rattle.signctl_core.specs.Commands.{command_by_word};
ghost use Rattle.domreth_run.specs.Answers.{IsAnswer};

use crate::lent_bytes::LentBytes;
use crate::text_sink::TextSink;
use sign_request::HeaderSeeds;
use signctl_core::{Status, run};
use std::alloc::Global;

/// A text, and whether no line was bad.
#[derive(Drop)]
pub struct Answer {
    pub text: Vec<u8>,
    pub is_good: bool,
}

/// Why there is no text.
#[derive(Clone, Copy, Debug, PartialEq, Eq)]
pub enum NoAnswer {
    /// No command that reads lines has this name.
    Usage,
    /// An allocation failed.
    OutOfMemory,
}

impl Answer {
    /// The answer of the command of this name to the input: the whole output to all of it, and whether a line
    /// was bad or the input too long. The header maps that are made of lines have these keys; nothing else
    /// depends on them.
    pub fn of(
        alloc: Global,
        command: &[u8],
        input: &[u8],
        keys: HeaderSeeds,
    ) -> Result<Answer, NoAnswer>
        ensures { MatchResult result
            (λ answer. IsAnswer (command_by_word command.now) input.now answer.is_good answer.text.items)
            (λ why. why ≡ NoAnswer.Usage → command_by_word command.now ≡ None) }
    {
        let word = match String::from_str(alloc, word_of(command)) {
            Ok(word) => word,
            Err(_) => return Err(NoAnswer::OutOfMemory),
        };
        let mut source = LentBytes { left: input };
        let mut sink = TextSink::new(alloc);
        let status = run(alloc, &[word], &mut source, &mut sink, keys);
        match status {
            Status::Done => Ok(Answer {
                text: sink.bytes,
                is_good: true,
            }),
            Status::Refused => Ok(Answer {
                text: sink.bytes,
                is_good: false,
            }),
            Status::Usage => Err(NoAnswer::Usage),
            Status::ReadFault => unreachable!(),
            Status::WriteFault | Status::OutOfMemory => Err(NoAnswer::OutOfMemory),
        }
    }
}

/// A word that names the same command as these bytes.
fn word_of(command: &[u8]) -> &'static str
    ensures { command_by_word result.now ≡ command_by_word command.now }
{
    if command == b"script".as_slice() {
        "script"
    } else if command == b"hmac".as_slice() {
        "hmac"
    } else if command == b"view".as_slice() {
        "view"
    } else if command == b"grant".as_slice() {
        "grant"
    } else if command == b"sigv4".as_slice() {
        "sigv4"
    } else if command == b"audit".as_slice() {
        "audit"
    } else {
        ""
    }
}
