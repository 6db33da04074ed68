//! The whole program on the commands that threads serve, as a function over its words and streams.
ghost use Rattle.std.specs.Prelude.{◌≡◌, map, string_bytes, option_map, IfSome};
ghost use Rattle.signctl_driver.specs.Reasons.{reason_line};
ghost use Rattle.signctl_driver.specs.Status.{exit_status};
ghost use Rattle.signctl_driver.specs.Streams.{WritesOnce};
ghost use Rattle.pool_jobs.specs.Meaning.{pool_meaning};
ghost use Rattle.signctl_threads.specs.declared.end.PoolEnd.{PoolEnd};
ghost use Rattle.signctl_threads.specs.Ends.{status_of};
ghost use Rattle.signctl_threads.specs.Pool.{IsThreadsRun};
ghost use Rattle.signctl_threads.specs.PromptLine.{WritesPromptLine};
ghost use Rattle.signctl_threads.specs.Words.{IsPoolSize};
ghost use Rattle.signctl_threads.specs.CommandLine.{asked_of};

use crate::{PoolEnd, run_pool};
use pool_jobs::PoolGate;
use sign_io::Sink;
use signctl_driver::Status;
use signctl_driver::status::{after_name, report};
use std::alloc::Global;
use std::sync::Wait;
use std::thread::Threads;

/// Answers a command line, whose first word is the program's name, by the commands that threads serve, and
/// gives the exit status. It may wait for its threads.
///
/// The answer goes to `output`, and to `errors` the line that says why it ended early, as `run_program` does.
pub fn run_threads<D: Sink, E: Sink, R: Threads + Wait + Sync>(
    rt: &R,
    alloc: Global,
    words: Option<Vec<String>>,
    output: &mut D,
    errors: &mut E,
) -> u8
    ensures { (ended : PoolEnd) × (result ≡ exit_status (status_of ended))
        × IsThreadsRun pool_meaning (asked_of (option_map (λ all. map string_bytes all.items) words)) ended
        (record { holds = D.holds; faults = D.faults; old = output.old; new = output.new })
        × WritesPromptLine (asked_of (option_map (λ all. map string_bytes all.items) words)) ended
        (record { holds = D.holds; faults = D.faults; old = output.old; new = output.new })
        × WritesOnce (reason_line (status_of ended))
        (record { holds = E.holds; faults = E.faults; old = errors.old; new = errors.new }) }
{
    let ended = serve(rt, alloc, words, output);
    let status = ended.status();
    report(status, errors);
    status.exit_status()
}

/// Runs the command that a command line asks for.
fn serve<D: Sink, R: Threads + Wait + Sync>(
    rt: &R,
    alloc: Global,
    words: Option<Vec<String>>,
    output: &mut D,
) -> PoolEnd
    ensures size { IfSome (asked_of (option_map (λ all. map string_bytes all.items) words)) IsPoolSize }
    ensures run { IsThreadsRun pool_meaning
        (asked_of (option_map (λ all. map string_bytes all.items) words)) result
        (record { holds = D.holds; faults = D.faults; old = output.old; new = output.new }) }
{
    match words {
        Some(all) => run_pool(
            rt,
            alloc,
            after_name(all.as_slice()),
            &PoolGate { alloc },
            output,
        ),
        None => PoolEnd::Ended(Status::Usage),
    }
}
