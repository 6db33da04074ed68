//! The commands that threads serve, run to their ends.
ghost use Rattle.std.specs.Prelude.{map, string_bytes, IfSome};
ghost use Rattle.signctl_threads.specs.Words.{threaded_command, IsPoolSize};
ghost use Rattle.signctl_threads.specs.Pool.{IsThreadsRun};

use crate::end::PoolEnd;
use crate::pool::run_pool_command;
use crate::queue::run_queue_command;
use crate::words::{ThreadedCommand, command_of};
use sign_io::Sink;
use signctl_driver::Status;
use signctl_format::ScriptCredential;
use signer_shared::Gate;
use std::alloc::Global;
use std::sync::Wait;
use std::thread::Threads;

/// Runs the command that the words name. `pool W J`: W workers serve J calls at one shared signer, with the
/// answers of the gate, and one line is written of the settled journal. `queue W J C`: so do they, and the
/// calls come through a queue that holds C, and the line is of the books. It may wait for its threads.
///
/// The sink is as it was unless all went well, or its write failed. A worker that ran out of memory ends the
/// run so, whatever closing the signer gave.
pub fn run_pool<G: Gate<ScriptCredential> + Sync, D: Sink, R: Threads + Wait + Sync>(
    rt: &R,
    alloc: Global,
    words: &[String],
    gate: &G,
    sink: &mut D,
) -> PoolEnd
    ensures size { IfSome (threaded_command (map string_bytes words.now)) IsPoolSize }
    ensures run { IsThreadsRun (G.meaning gate.now) (threaded_command (map string_bytes words.now)) result
        (record { holds = D.holds; faults = D.faults; old = sink.old; new = sink.new }) }
{
    match command_of(words) {
        None => PoolEnd::Ended(Status::Usage),
        Some(ThreadedCommand::Pool { workers, jobs }) => {
            run_pool_command(rt, alloc, workers, jobs, gate, sink)
        }
        Some(
            ThreadedCommand::Queue {
                workers,
                jobs,
                capacity,
            },
        ) => run_queue_command(rt, alloc, workers, jobs, capacity, gate, sink),
    }
}
