//! The pool of a queue, without seats.
ghost use Rattle.std.specs.Prelude.{◌≡◌, ◌<◌, ◌≤◌, IfOk};
ghost use Rattle.crossbeam_queue.specs.Passes.{ruled_capacity};
ghost use Rattle.desk_parts.specs.Tables.{setup_of};
ghost use Rattle.pool_jobs.specs.Setup.{pool_setup};

use pool_jobs::pool_desk;
use sign_base::NoMemory;
use sign_pool::Pool;
use signctl_format::{ScriptCredential, ScriptRule};
use signer_shared::Book;
use std::alloc::Global;

/// The pool that a command makes.
pub(crate) type QueuePool = Pool<ScriptCredential, ScriptRule>;

/// A pool with a handle for each worker, whose queue holds so many jobs.
///
/// Errors: an allocation failed.
pub(crate) fn queue_pool(
    alloc: Global,
    workers: u32,
    capacity: usize,
) -> Result<QueuePool, NoMemory<()>>
    requires capacity { (0 < capacity) × (capacity ≤ 65536) }
    ensures setup { IfOk result (λ pool. setup_of pool.shared ≡ pool_setup workers) }
    ensures capacity { IfOk result (λ pool. ruled_capacity pool.queue ≡ capacity) }
    ensures submitters { IfOk result (λ pool. pool.submitters ≡ 0) }
    ensures workers { IfOk result (λ pool. pool.workers ≡ 0) }
{
    let book = Book::new(pool_desk(alloc, workers)?);
    let plan = pool_desk(alloc, workers)?;
    match Pool::new(book, plan, capacity) {
        Ok(pool) => Ok(pool),
        Err(_) => Err(NoMemory { back: () }),
    }
}
