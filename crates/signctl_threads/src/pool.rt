//! A pool of workers at one shared signer, run to its end: the command `pool`.
ghost use Rattle.std.specs.Prelude.{◌≡◌, ◌<◌, ◌≤◌, [], ℕ, List, IfOk, IfErr, MatchResult, MatchBool, All};
ghost use Rattle.std.specs.Prelude.{IsTrue, false, map, length};
ghost use Rattle.std.specs.List.{list_any};
ghost use Rattle.sign_io.specs.Faults.{CountsFault};
ghost use Rattle.desk_parts.specs.Tables.{setup_of};
ghost use Rattle.signctl_driver.specs.Status.{is_write_fault};
ghost use Rattle.signer_shared.specs.declared.job.Served.{Served};
ghost use Rattle.pool_jobs.specs.Setup.{pool_setup};
ghost use Rattle.pool_jobs.specs.Work.{pool_work};
ghost use Rattle.signctl_threads.specs.Words.{most_workers};
ghost use Rattle.signctl_threads.specs.Ends.{status_of};
ghost use Rattle.signctl_threads.specs.Pool.{IsSettledPool, EndsEarly, EndsPool};

use crate::end::PoolEnd;
use crate::line::pool_line;
use pool_jobs::{pool_desk, pool_work};
use sign_base::NoMemory;
use sign_io::Sink;
use signctl_driver::Status;
use signctl_driver::output::write_all;
use signctl_format::{ScriptCredential, ScriptRule};
use signer_shared::{Book, Gate, PoolRefused, Pooled, Served, Settled, SharedSigner, serve_all};
use std::alloc::Global;
use std::sync::Wait;
use std::thread::Threads;

/// How often a gate is asked for a provider's answer.
const TURNS: u64 = 1;

/// Serves so many jobs by so many workers, and writes the line of the settled journal.
pub(crate) fn run_pool_command<G: Gate<ScriptCredential> + Sync, D: Sink, R: Threads + Wait + Sync>(
    rt: &R,
    alloc: Global,
    workers: u32,
    jobs: u64,
    gate: &G,
    sink: &mut D,
) -> PoolEnd
    requires some { 0 < workers }
    requires few { workers ≤ most_workers }
    ensures gives { EndsPool (G.meaning gate.now) workers jobs result
        (record { holds = D.holds; faults = D.faults; old = sink.old; new = sink.new }) }
    ensures writes { CountsFault (is_write_fault (status_of result)) (D.faults sink.old) (D.faults sink.new) }
{
    let settled = match run_workers(rt, alloc, workers, jobs, gate) {
        Ok(settled) => settled,
        Err(end) => return end,
    };
    let Ok(line) = pool_line(alloc, jobs, settled.journal.as_slice()) else {
        return PoolEnd::Ended(Status::OutOfMemory);
    };
    match write_all(sink, line.as_slice()) {
        Ok(()) => PoolEnd::Done(settled),
        Err(_) => PoolEnd::Ended(Status::WriteFault),
    }
}

/// Serves so many jobs by so many workers, and closes the signer.
fn run_workers<G: Gate<ScriptCredential> + Sync, R: Threads + Wait + Sync>(
    rt: &R,
    alloc: Global,
    workers: u32,
    jobs: u64,
    gate: &G,
) -> Result<Settled<ScriptCredential, ScriptRule>, PoolEnd>
    requires some { 0 < workers }
    requires few { workers ≤ most_workers }
    ensures { MatchResult result (IsSettledPool (G.meaning gate.now) workers jobs)
        (EndsEarly (G.meaning gate.now) workers jobs) }
{
    let Ok(shared) = shared_signer(alloc, workers) else {
        return Err(PoolEnd::Ended(Status::OutOfMemory));
    };
    let Ok(work) = pool_work(alloc, workers, jobs) else {
        return Err(PoolEnd::Ended(Status::OutOfMemory));
    };
    match serve_all(rt, shared, work.as_slice(), gate, TURNS) {
        Ok(Pooled { settled, served }) => {
            if any_ran_out(served.as_slice()) {
                return Err(PoolEnd::Ended(Status::OutOfMemory));
            }
            Ok(settled)
        }
        Err(PoolRefused::Close { refused, served }) => {
            if any_ran_out(served.as_slice()) {
                return Err(PoolEnd::Ended(Status::OutOfMemory));
            }
            Err(PoolEnd::Disagreed(refused))
        }
        Err(PoolRefused::OutOfMemory(_)) => Err(PoolEnd::Ended(Status::OutOfMemory)),
    }
}

/// A shared signer with the pool's setup.
fn shared_signer(
    alloc: Global,
    workers: u32,
) -> Result<SharedSigner<ScriptCredential, ScriptRule>, NoMemory<()>>
    requires { workers ≤ most_workers }
    ensures { IfOk result (λ plan. setup_of plan ≡ pool_setup workers) }
{
    let book = Book::new(pool_desk(alloc, workers)?);
    let plan = pool_desk(alloc, workers)?;
    Ok(SharedSigner::new(book, plan))
}

/// Whether an allocation failed in some worker.
fn any_ran_out(served: &[Served]) -> bool
    ensures { result ≡ list_any (λ s. s.out_of_memory) served.now }
{
    served.iter().any(|counts| counts.out_of_memory)
}
