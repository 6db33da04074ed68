//! The command that a line of the setting `credential_process` names.
ghost use Rattle.std.specs.Prelude.{◌≡◌, ◌≢◌, [], Ok, IfOk, map, string_bytes};
ghost use Rattle.std.specs.Str.Lossy.{utf8_lossy};
ghost use Rattle.sign_base.specs.Error.{new_error};
ghost use Rattle.sign_base.specs.Refusal.{IsErrorOf};
ghost use Rattle.sign_base.specs.declared.error_kind.ErrorKind.TheVariants as kind;
ghost use Rattle.aws_json.specs.Reading.{IsReading};
ghost use Rattle.aws_process.specs.CommandLine.{command_in, command_of, command_seen, fault_text, no_command};

use crate::output::text_of;
use crate::{SplitFault, split_words};
use sign_base::{Error, ErrorKind, NoMemory};
use std::alloc::Global;

/// A program and its arguments.
#[derive(Drop)]
pub(crate) struct CommandLine {
    pub(crate) program: String,
    pub(crate) args: Vec<String>,
}

/// The command of a line: its first word is the program. What is not UTF-8 in a word is U+FFFD.
///
/// `CredentialInvalid`, with the place in its message and nothing of the line, where that has no words, or
/// does not end a quotation or an escape.
pub(crate) fn command_in(alloc: Global, place: &str, line: &str) -> Result<CommandLine, Error>
    ensures { IsReading command_seen (command_in place.now line.now) result }
{
    match split_words(alloc, line.as_bytes()) {
        Ok(words) => command_of(alloc, place, words.as_slice()),
        Err(fault) => Err(not_split(alloc, fault, place)),
    }
}

fn command_of(alloc: Global, place: &str, words: &[Vec<u8>]) -> Result<CommandLine, Error>
    ensures { IsReading command_seen (command_of place.now (Ok (map (λ w. w.items) words.now))) result }
{
    match words.split_first() {
        Some((program, args)) => Ok(CommandLine {
            program: text_of(alloc, program.as_slice())?,
            args: texts_of(alloc, args)?,
        }),
        None => Err(no_command(alloc, "without words", place)),
    }
}

fn texts_of(alloc: Global, words: &[Vec<u8>]) -> Result<Vec<String>, NoMemory<()>>
    ensures { IfOk result (λ texts. map string_bytes texts.items
        ≡ map utf8_lossy (map (λ w. w.items) words.now)) }
{
    let mut texts = Vec::new(alloc);
    for word in words {
        texts.push(text_of(alloc, word.as_slice())?)?;
    }
    Ok(texts)
}

/// The error that a line was not split.
fn not_split(alloc: Global, fault: SplitFault, place: &str) -> Error
    ensures memory { fault ≡ SplitFault.OutOfMemory → result ≡ new_error kind.OutOfMemory [] }
    ensures invalid { fault ≢ SplitFault.OutOfMemory
        → IsErrorOf kind.CredentialInvalid (no_command (fault_text fault) place.now) result }
{
    match fault {
        SplitFault::OutOfMemory => Error::out_of_memory(),
        SplitFault::Quote => no_command(alloc, "with an open quotation", place),
        SplitFault::Escape => no_command(alloc, "with an open escape", place),
    }
}

/// The error that a line names no command.
fn no_command(alloc: Global, cause: &str, place: &str) -> Error
    ensures { IsErrorOf kind.CredentialInvalid (no_command cause.now place.now) result }
{
    match format!(in alloc; "a credential_process line {cause} in {place}") {
        Ok(message) => Error::of(ErrorKind::CredentialInvalid, message),
        Err(_) => Error::out_of_memory(),
    }
}
