//! The whole program, as a function over its words and streams: `main` hands it the real ones.
ghost use Rattle.std.specs.Prelude.{◌≡◌, ◌≢◌, map, string_bytes, option_map, false};
ghost use Rattle.sign_io.specs.Faults.{CountsFault};
ghost use Rattle.signctl_driver.specs.Status.{is_read_fault, is_write_fault};
ghost use Rattle.signctl_driver.specs.Reasons.{reason_line};
ghost use Rattle.signctl_driver.specs.Streams.{Adds, WritesOnce};
ghost use Rattle.signctl_core.specs.Commands.{IsRun};
ghost use Rattle.signctl_core.specs.Program.{help_text, version_text, text_by_word, text_named};
ghost use Rattle.signctl_core.specs.Program.{request_by, request_of, TextAdds, Answers, ExitsWith};

use crate::commands::run;
use sign_io::{Sink, Source};
use sign_request::HeaderSeeds;
use signctl_driver::output::write_all;
use signctl_driver::status::{after_name, report};
use signctl_driver::{Status, usage_line};
use std::alloc::Global;

/// Answers a command line, whose first word is the program's name, and gives the exit status. `None` is
/// a command line that is not text.
///
/// The answer goes to `output`, and to `errors` the line that says why it ended early. Where that line
/// can't be written a prefix of it stands there, and the exit status is the same. The header maps that are
/// made of lines have these keys; nothing else depends on them.
pub fn run_program<S: Source, D: Sink, E: Sink>(
    alloc: Global,
    words: Option<Vec<String>>,
    source: &mut S,
    output: &mut D,
    errors: &mut E,
    keys: HeaderSeeds,
) -> u8
    // What the words ask for is done, and standard error says why it ended early.
    ensures { ExitsWith result (λ status.
        IsRun Answers (request_of (option_map (λ all. map string_bytes all.items) words)) status
        (record { holds = S.left; faults = S.faults; old = source.old; new = source.new })
        (record { holds = D.holds; faults = D.faults; old = output.old; new = output.new })
        × WritesOnce (reason_line status)
        (record { holds = E.holds; faults = E.faults; old = errors.old; new = errors.new })) }
{
    let status = match words {
        Some(all) => answer(alloc, after_name(all.as_slice()), source, output, keys),
        None => Status::Usage,
    };
    report(status, errors);
    status.exit_status()
}

/// Shows the text that the words ask for, or runs the command that they name.
fn answer<S: Source, D: Sink>(
    alloc: Global,
    words: &[String],
    source: &mut S,
    output: &mut D,
    keys: HeaderSeeds,
) -> Status
    ensures { IsRun Answers (request_by (map string_bytes words.now)) result
        (record { holds = S.left; faults = S.faults; old = source.old; new = source.new })
        (record { holds = D.holds; faults = D.faults; old = output.old; new = output.new }) }
{
    match text_named(words) {
        Some(text) => show(text, output),
        None => run(alloc, words, source, output, keys),
    }
}

/// The text that the words ask for.
fn text_named(words: &[String]) -> Option<&'static str>
    ensures { option_map (λ text. text.now) result ≡ text_named (map string_bytes words.now) }
{
    match words {
        [word] => text_by_word(word.as_str()),
        _ => None,
    }
}

fn text_by_word(word: &str) -> Option<&'static str>
    ensures { option_map (λ text. text.now) result ≡ text_by_word word.now }
{
    match word {
        "--help" => Some(help_text()),
        "--version" => Some(version_text()),
        _ => None,
    }
}

/// Writes a text that was asked for.
fn show<D: Sink>(text: &str, output: &mut D) -> Status
    ensures ran { result ≢ Status.Usage }
    ensures shown { Adds (record { holds = D.holds; faults = D.faults; old = output.old; new = output.new })
        (TextAdds text.now result) }
    ensures reads { is_read_fault result ≡ false }
    ensures writes { CountsFault (is_write_fault result) (D.faults output.old) (D.faults output.new) }
{
    match write_all(output, text.as_bytes()) {
        Ok(()) => Status::Done,
        Err(_) => Status::WriteFault,
    }
}

fn version_text() -> &'static str
    ensures { result.now ≡ version_text }
{
    "signctl 0.3.0\n"
}

fn help_text() -> &'static str
    ensures { result.now ≡ help_text }
{
    usage_line!(
        "
These commands work. The first six read lines from standard input and answer them on standard
output; the last three read nothing.

  script       runs the request signer: events in, its replies out
  hmac         digests, HMAC and Base64: a call and its arguments in, the text out
  view         request heads in, what a signing service sees of each out
  grant        runs a credential broker: events in, its replies out
  sigv4        request heads with keys in, heads signed with AWS Signature Version 4 out
  audit        events and the replies claimed for them in, whether these are the signer's out
  load N       runs N made-up calls on the signer, and counts its replies
  pool W J     serves J made-up calls by W threads at one shared signer, and counts them
  queue W J C  serves them from a queue that holds C, and counts what was answered and left

  --help, --version    print this text, the version

exit status: 0 done, 2 no such command, 3 a line is bad, 4 a read failed,
5 a write failed, 6 out of memory. The lines are described in docs/FORMATS.md.
"
    )
}
