//! A queue of jobs for workers at one shared signer, run to its end: the command `queue`.
ghost use Rattle.std.specs.Prelude.{◌≡◌, ◌<◌, ◌≤◌};
ghost use Rattle.sign_io.specs.Faults.{CountsFault};
ghost use Rattle.signctl_driver.specs.Status.{is_write_fault};
ghost use Rattle.signctl_threads.specs.Words.{most_capacity, most_jobs};
ghost use Rattle.signctl_threads.specs.Ends.{queue_end, status_of};
ghost use Rattle.signctl_threads.specs.Queue.{EndsQueue};

use crate::books::books_line;
use crate::end::PoolEnd;
use crate::{QueueRefused, serve_queue};
use sign_io::Sink;
use signctl_driver::Status;
use signctl_driver::output::write_all;
use signctl_format::ScriptCredential;
use signer_shared::Gate;
use std::alloc::Global;
use std::sync::Wait;
use std::thread::Threads;

/// Serves so many jobs by so many workers through a queue, and writes the line of the books.
pub(crate) fn run_queue_command<
    G: Gate<ScriptCredential> + Sync,
    D: Sink,
    R: Threads + Wait + Sync,
>(rt: &R, alloc: Global, workers: u32, jobs: u64, capacity: u64, gate: &G, sink: &mut D) -> PoolEnd
    requires some { 0 < workers }
    requires jobs { jobs ≤ most_jobs }
    requires capacity { (0 < capacity) × (capacity ≤ most_capacity) }
    ensures gives { EndsQueue (G.meaning gate.now) workers jobs result
        (record { holds = D.holds; faults = D.faults; old = sink.old; new = sink.new }) }
    ensures writes { CountsFault (is_write_fault (status_of result)) (D.faults sink.old) (D.faults sink.new) }
{
    let finished = match serve_queue(rt, alloc, workers, jobs, capacity as usize, gate) {
        Ok(finished) => finished,
        Err(refused) => return end_of(refused),
    };
    let Ok(line) = books_line(alloc, &finished) else {
        return PoolEnd::Ended(Status::OutOfMemory);
    };
    match write_all(sink, line.as_slice()) {
        Ok(()) => PoolEnd::Finished(finished),
        Err(_) => PoolEnd::Ended(Status::WriteFault),
    }
}

/// The end of a run that was not finished.
fn end_of(refused: QueueRefused) -> PoolEnd
    ensures { result ≡ queue_end refused }
{
    match refused {
        QueueRefused::OutOfMemory => PoolEnd::Ended(Status::OutOfMemory),
        QueueRefused::Close(close) => PoolEnd::Disagreed(close),
        QueueRefused::Uncleared { finished, why } => PoolEnd::Uncleared { finished, why },
    }
}
