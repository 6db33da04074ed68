//! A queue of jobs, run to its end.
ghost use Rattle.std.specs.Prelude.{◌<◌, ◌≤◌, MatchResult};
ghost use Rattle.signctl_threads.specs.Run.{IsFinishedQueue, IsRefusedQueue};

use crate::refused::QueueRefused;
use crate::seats::{ServedPool, served_pool};
use sign_pool::{FinishError, FinishRefused, Finished};
use signctl_format::{ScriptCredential, ScriptRule};
use signer_shared::Gate;
use std::alloc::Global;
use std::sync::Wait;
use std::thread::Threads;

/// Serves so many jobs by so many workers through a queue that holds so many, and finishes the pool. It may
/// wait for its threads.
///
/// An allocation that failed in a thread or in a job is an error, whatever finishing the pool would give.
///
/// Requires a worker, and a capacity of 1 to 65,536.
pub fn serve_queue<G: Gate<ScriptCredential> + Sync, R: Threads + Wait + Sync>(
    rt: &R,
    alloc: Global,
    workers: u32,
    jobs: u64,
    capacity: usize,
    gate: &G,
) -> Result<Finished<ScriptCredential, ScriptRule>, QueueRefused>
    requires some { 0 < workers }
    requires capacity { (0 < capacity) × (capacity ≤ 65536) }
    ensures { MatchResult result (IsFinishedQueue (G.meaning gate.now) workers jobs)
        (IsRefusedQueue (G.meaning gate.now) workers jobs) }
{
    let Ok(served) = served_pool(rt, alloc, workers, jobs, capacity, gate) else {
        return Err(QueueRefused::OutOfMemory);
    };
    let ServedPool {
        pool,
        submitters,
        workers,
    } = served;
    match pool.finish(rt, submitters, workers) {
        Ok(finished) => Ok(finished),
        Err(FinishRefused::Early { why, .. }) => match why {
            FinishError::OutOfMemory => Err(QueueRefused::OutOfMemory),
            FinishError::Seats { .. } => unreachable!(),
        },
        Err(FinishRefused::Close { refused, .. }) => Err(QueueRefused::Close(refused)),
        Err(FinishRefused::Uncleared { finished, why }) => {
            Err(QueueRefused::Uncleared { finished, why })
        }
    }
}
