//! A provider that runs a program, and an object that runs it as its arguments say. Each run is pending once.
ghost use Rattle.std.specs.Prelude.{⊤};

use crate::documents::key_and_token;
use crate::told::{is_text, message_of, str_of, text_of};
use aws_credentials::SessionCredential;
use aws_process::{ProcessProvider, SplitFault, split_words};
use credentials::{
    CommandExecute, CommandOutput, Context, NoopEnv, NoopFileRead, NoopHttpSend, Polled,
    ProvideCredential,
};
use sign_base::NoMemory;
use std::alloc::Global;
use std::process::Abort;

/// Runs `/opt/bin/login`, which ends with the status of its first argument and prints the second.
#[derive(Clone, Copy)]
pub(crate) struct Login;

/// A run that is on its way, or here.
#[derive(Drop)]
pub(crate) struct Run {
    is_here: bool,
    status: i32,
    printed: String,
}

impl CommandExecute for Login {
    type Run = Run;

    ghost started = { λ object program args run. ⊤ };

    ghost ready = { λ object run. ⊥ };

    ghost gives = { λ object program args answer. ⊤ };

    fn command_execute(
        &self,
        alloc: Global,
        program: &str,
        args: &[String],
    ) -> Result<Run, NoMemory<()>> {
        let printed = match args {
            [_, printed] => printed.as_str(),
            _ => "",
        };
        Ok(Run {
            is_here: false,
            status: status_of(program, args),
            printed: String::from_str(alloc, printed)?,
        })
    }

    fn poll_run(&self, alloc: Global, run: &mut Run) -> Polled<CommandOutput> {
        if !run.is_here {
            run.is_here = true;
            return Polled::Pending;
        }
        output(alloc, run.status, run.printed.as_str())
    }
}

fn status_of(program: &str, args: &[String]) -> i32 {
    match args {
        [status, _] if program == "/opt/bin/login" => status.as_str().parse::<i32>().unwrap_or(127),
        _ => 127,
    }
}

fn output(alloc: Global, status: i32, printed: &str) -> Polled<CommandOutput> {
    match Vec::from_slice(alloc, printed.as_bytes()) {
        Ok(stdout) => Polled::Ready(CommandOutput {
            status,
            stdout,
            stderr: Vec::new(alloc),
        }),
        Err(_) => Polled::OutOfMemory,
    }
}

/// The status and what is printed, and what the provider answers.
static RUNS: [(&str, &str, &str); 5] = [
    (
        "0",
        "{\"Version\":1,\"AccessKeyId\":\"AKIDEXAMPLE\",\"SecretAccessKey\":\"hidden\",\"SessionToken\":\"t\"}",
        "AKIDEXAMPLE t",
    ),
    ("1", "hidden", "status 1 of the process"),
    ("-9", "hidden", "status -9 of the process"),
    ("0", "hidden", "no JSON in the output of the process"),
    (
        "0",
        "{\"Version\":1}",
        "no access key in the output of the process",
    ),
];

type Surroundings = Context<NoopFileRead, NoopHttpSend, NoopEnv, Login>;

#[test]
fn processes_print_credentials(rt: HostRuntime) {
    let ctx = Context::new().with_command_execute(Login);
    for (status, printed, wanted) in &RUNS {
        is_text(
            &rt,
            answer_of(&rt, rt.alloc(), *status, *printed, &ctx),
            *wanted,
        );
    }
}

/// What the provider answers in the end, in words.
fn answer_of(
    rt: &impl Abort,
    alloc: Global,
    status: &str,
    printed: &str,
    ctx: &Surroundings,
) -> String {
    let program = text_of(rt, alloc, b"/opt/bin/login");
    let provider = ProcessProvider::new(program, args_of(rt, alloc, status, printed));
    let told = answered(rt, alloc, &provider, ctx);
    drop(provider);
    told
}

fn args_of(rt: &impl Abort, alloc: Global, status: &str, printed: &str) -> Vec<String> {
    let mut args = Vec::new(alloc);
    push_arg(rt, alloc, &mut args, status);
    push_arg(rt, alloc, &mut args, printed);
    args
}

fn push_arg(rt: &impl Abort, alloc: Global, args: &mut Vec<String>, arg: &str) {
    args.push(text_of(rt, alloc, arg.as_bytes()))
        .expect(rt, "memory");
}

/// What a provider answers in the end, in words. It is polled eight times at most.
pub(crate) fn answered<P>(rt: &impl Abort, alloc: Global, provider: &P, ctx: &P::Ctx) -> String
where
    P: ProvideCredential<Credential = SessionCredential>,
{
    let mut load = provider
        .provide_credential(alloc, ctx)
        .ok()
        .expect(rt, "memory");
    for _ in 0..8 {
        match provider.poll_load(alloc, ctx, &mut load) {
            Polled::Pending => {}
            answer => return words_of(rt, alloc, answer),
        }
    }
    text_of(rt, alloc, b"pending")
}

fn words_of(rt: &impl Abort, alloc: Global, answer: Polled<Option<SessionCredential>>) -> String {
    match answer {
        Polled::Ready(found) => session_told(rt, alloc, found),
        Polled::Failed(error) => message_of(rt, alloc, error),
        Polled::Pending => text_of(rt, alloc, b"pending"),
        Polled::OutOfMemory => text_of(rt, alloc, b"out of memory"),
    }
}

fn session_told(rt: &impl Abort, alloc: Global, found: Option<SessionCredential>) -> String {
    let told = match &found {
        Some(session) => key_and_token(rt, alloc, session),
        None => text_of(rt, alloc, b"none"),
    };
    drop(found);
    told
}

/// Lines, and their words as Python 3.11's `shlex.split` has them, each between `<` and `>`, or the fault that
/// it names: "No closing quotation" or "No escaped character".
static LINES: [(&str, &str); 32] = [
    ("/opt/bin/login \"a b\" --x", "</opt/bin/login><a b><--x>"),
    ("", ""),
    (" \t\r\n ", ""),
    ("a\tb  c\r\nd", "<a><b><c><d>"),
    ("a\u{b}b\u{c}c\u{a0}d", "<a\u{b}b\u{c}c\u{a0}d>"),
    ("# a#b 'c d'", "<#><a#b><c d>"),
    ("$HOME *.txt ~", "<$HOME><*.txt><~>"),
    ("caf\u{e9} \"na\u{ef}ve x\"", "<caf\u{e9}><na\u{ef}ve x>"),
    ("a\"b\"c", "<abc>"),
    ("a''b", "<ab>"),
    ("''", "<>"),
    ("\"\"", "<>"),
    ("'' \"\" a", "<><><a>"),
    ("x\"y'z\"", "<xy'z>"),
    ("'it'\"'\"'s'", "<it's>"),
    ("'a' 'b'", "<a><b>"),
    ("'a\\'", "<a\\>"),
    ("a\\ b", "<a b>"),
    ("a\\\\b", "<a\\b>"),
    ("a\\\nb", "<a\nb>"),
    ("\\'a\\\"", "<'a\">"),
    ("C:\\bin\\x", "<C:binx>"),
    ("\"C:\\new folder\\x\"", "<C:\\new folder\\x>"),
    ("\"\\a\"", "<\\a>"),
    ("\"\\\\\"", "<\\>"),
    ("\"\\\"\"", "<\">"),
    ("\"a\\\nb\"", "<a\\\nb>"),
    ("a \"b", "No closing quotation"),
    ("a 'b", "No closing quotation"),
    ("'\\", "No closing quotation"),
    ("a\\", "No escaped character"),
    ("\"a\\", "No escaped character"),
];

#[test]
fn a_line_has_the_words_that_shlex_splits(rt: HostRuntime) {
    for (line, wanted) in &LINES {
        is_text(&rt, words_told(&rt, rt.alloc(), *line), *wanted);
    }
}

fn words_told(rt: &impl Abort, alloc: Global, line: &str) -> String {
    match split_words(alloc, line.as_bytes()) {
        Ok(words) => {
            let told = between_marks(rt, alloc, words.as_slice());
            drop(words);
            told
        }
        Err(SplitFault::Quote) => text_of(rt, alloc, b"No closing quotation"),
        Err(SplitFault::Escape) => text_of(rt, alloc, b"No escaped character"),
        Err(SplitFault::OutOfMemory) => text_of(rt, alloc, b"out of memory"),
    }
}

fn between_marks(rt: &impl Abort, alloc: Global, words: &[Vec<u8>]) -> String {
    let mut told = String::new(alloc);
    for word in words {
        push_marked(rt, &mut told, str_of(rt, word.as_slice()));
    }
    told
}

fn push_marked(rt: &impl Abort, told: &mut String, word: &str) {
    told.push_str("<").expect(rt, "memory");
    told.push_str(word).expect(rt, "memory");
    told.push_str(">").expect(rt, "memory");
}
