//! Working on jobs, each in one turn.
ghost use Rattle.std.specs.Prelude.{◌≡◌};
ghost use Rattle.signctl_threads.specs.Slots.{IsWorker};

use crate::desk::QueuePool;
use sign_base::NoMemory;
use sign_pool::{Work, Worker};
use signctl_format::ScriptCredential;
use signer_shared::Gate;
use std::sync::Wait;

/// How often a gate is asked for a provider's answer.
const TURNS: u64 = 1;

/// Works on one job, if there is one.
pub(crate) fn work_one<G: Gate<ScriptCredential>, R: Wait>(
    rt: &R,
    pool: &QueuePool,
    gate: &G,
    worker: &mut Worker<ScriptCredential>,
) -> Work
    requires { IsWorker pool.now.queue (G.meaning gate.now) worker.old }
    ensures worker { IsWorker pool.now.queue (G.meaning gate.now) worker.new }
    ensures handle { worker.new.handle ≡ worker.old.handle }
{
    pool.work(rt, worker, gate, TURNS)
}

/// Works until the queue holds no job.
///
/// Errors: an allocation failed.
pub(crate) fn work_until_empty<G: Gate<ScriptCredential>, R: Wait>(
    rt: &R,
    pool: &QueuePool,
    gate: &G,
    worker: &mut Worker<ScriptCredential>,
) -> Result<(), NoMemory<()>>
    requires { IsWorker pool.now.queue (G.meaning gate.now) worker.old }
    ensures worker { IsWorker pool.now.queue (G.meaning gate.now) worker.new }
    ensures handle { worker.new.handle ≡ worker.old.handle }
{
    for _ in rt.forever() {
        match work_one(rt, pool, gate, worker) {
            Work::Served(_) => {}
            Work::Empty => return Ok(()),
            Work::OutOfMemory => return Err(NoMemory { back: () }),
        }
    }
    unreachable!()
}
