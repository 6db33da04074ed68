//! The program: real streams round `signctl_core::run_program`, and round `signctl_threads::run_threads` for
//! the commands that threads serve.
#![tactic(auto)]

use sign_io::{Sink, StdSink, StdSource};
use signctl_core::{HeaderSeeds, Status, run_program};
use signctl_driver::status::report;
use signctl_threads::{is_for_threads, run_threads};
use std::hash::RandomState;
use std::process::ExitCode;
use std::rt::Env;
use std::{env, io};

fn main(rt: HostRuntime) -> ExitCode {
    let mut output = StdSink::new(io::writer(&rt));
    let mut errors = StdSink::new(rt.stderr());
    let words = match words(&rt) {
        Err(error) if error.kind() == io::ErrorKind::OutOfMemory => return out_of_memory(
            &mut errors,
        ),
        words => words.ok(),
    };
    if is_for_threads(&words) {
        return ExitCode::from(run_threads(&rt, rt.alloc(), words, &mut output, &mut errors));
    }
    let mut source = StdSource::new(rt.reader());
    let keys = RandomState::new(&rt)
        .map(HeaderSeeds::new)
        .unwrap_or_default();
    ExitCode::from(run_program(
        rt.alloc(),
        words,
        &mut source,
        &mut output,
        &mut errors,
        keys,
    ))
}

/// Ends as a command does that finds no memory: here there was none for the words.
fn out_of_memory<E: Sink>(errors: &mut E) -> ExitCode {
    report(Status::OutOfMemory, errors);
    ExitCode::from(Status::OutOfMemory.exit_status())
}

/// The words of the command line, from the program's name on.
fn words<R: Env + AllocGlobal>(rt: &R) -> io::Result<Vec<String>> {
    Ok(env::args(rt)?.collect(rt.alloc())?)
}
