//! The commands by their words, and a run of each over a source and a sink.
ghost use Rattle.std.specs.Prelude.{◌≡◌, [], map, string_bytes};
ghost use Rattle.std.specs.Result.{ForOk};
ghost use Rattle.sign_io.specs.Faults.{CountsFault};
ghost use Rattle.signctl_driver.specs.Status.{is_read_fault, is_write_fault};
ghost use Rattle.signctl_core.specs.Commands.{command_by_word, command_by_number, command_named, RunsOver};
ghost use Rattle.signctl_core.specs.Commands.{Runs, IsRun};

use line_words::word::parse_number;
use sign_base::NoMemory;
use sign_io::{Sink, Source};
use sign_request::HeaderSeeds;
use signctl_audit::AuditSession;
use signctl_by_line::{HmacCommand, LineByLine, Sigv4Command, ViewCommand};
use signctl_driver::{LineCommand, Status, drive};
use signctl_grant::GrantSession;
use signctl_load::run_load;
use signctl_script::Session;
use std::alloc::Global;

/// The most calls that `load` runs.
const MOST_CALLS: u64 = 100_000;

/// A command of the program.
#[derive(Clone, Copy, Debug, PartialEq, Eq)]
pub enum CommandName {
    Script,
    Hmac,
    View,
    Grant,
    Sigv4,
    Audit,
    /// `load` with so many calls.
    Load(u64),
}

/// Runs the command that the words name: `load` writes the counts of its replies to the sink, and every
/// other one reads lines from the source, and writes what they are answered. The header maps that are made
/// of lines have these keys; nothing else depends on them.
pub fn run<S: Source, D: Sink>(
    alloc: Global,
    words: &[String],
    source: &mut S,
    sink: &mut D,
    keys: HeaderSeeds,
) -> Status
    ensures { IsRun Runs (command_named (map string_bytes words.now)) result
        (record { holds = S.left; faults = S.faults; old = source.old; new = source.new })
        (record { holds = D.holds; faults = D.faults; old = sink.old; new = sink.new }) }
{
    match command_of(words) {
        None => Status::Usage,
        Some(CommandName::Script) => run_lines(alloc, Session::new(alloc), source, sink),
        Some(CommandName::Hmac) => drive(alloc, LineByLine(HmacCommand), source, sink),
        Some(CommandName::View) => drive(alloc, LineByLine(ViewCommand { keys }), source, sink),
        Some(CommandName::Grant) => run_lines(alloc, GrantSession::new(alloc), source, sink),
        Some(CommandName::Sigv4) => drive(alloc, LineByLine(Sigv4Command::new(keys)), source, sink),
        Some(CommandName::Audit) => run_lines(alloc, AuditSession::new(alloc), source, sink),
        Some(CommandName::Load(calls)) => run_load(alloc, calls, sink),
    }
}

/// The command that the words name.
fn command_of(words: &[String]) -> Option<CommandName>
    ensures { result ≡ command_named (map string_bytes words.now) }
{
    match words {
        [word] => command_by_word(word.as_str()),
        [word, number] => command_by_number(word.as_str(), number.as_str()),
        _ => None,
    }
}

fn command_by_word(word: &str) -> Option<CommandName>
    ensures { result ≡ command_by_word word.now }
{
    match word {
        "script" => Some(CommandName::Script),
        "hmac" => Some(CommandName::Hmac),
        "view" => Some(CommandName::View),
        "grant" => Some(CommandName::Grant),
        "sigv4" => Some(CommandName::Sigv4),
        "audit" => Some(CommandName::Audit),
        _ => None,
    }
}

fn command_by_number(word: &str, text: &str) -> Option<CommandName>
    ensures { result ≡ command_by_number word.now text.now }
{
    if word != "load" {
        return None;
    }
    let calls = parse_number(MOST_CALLS, text.as_bytes()).ok()?;
    Some(CommandName::Load(calls))
}

/// Runs a command over lines, where there was memory to set it up.
fn run_lines<C: LineCommand, S: Source, D: Sink>(
    alloc: Global,
    command: Result<C, NoMemory<()>>,
    source: &mut S,
    sink: &mut D,
) -> Status
    requires { ForOk command (λ command. C.represents command []) }
    ensures bytes { RunsOver C.command result
        (record { holds = S.left; faults = S.faults; old = source.old; new = source.new })
        (record { holds = D.holds; faults = D.faults; old = sink.old; new = sink.new }) }
    ensures reads { CountsFault (is_read_fault result) (S.faults source.old) (S.faults source.new) }
    ensures writes { CountsFault (is_write_fault result) (D.faults sink.old) (D.faults sink.new) }
{
    match command {
        Ok(command) => drive(alloc, command, source, sink),
        Err(_) => Status::OutOfMemory,
    }
}
