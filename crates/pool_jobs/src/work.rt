//! The jobs of a pool, dealt out to its workers.
ghost use Rattle.std.specs.Prelude.{◌≡◌, ◌<◌, ◌≤◌, IfOk, OnOk, map, length};
ghost use Rattle.pool_jobs.specs.Work.{pool_job, pool_work};

use crate::head::pool_head;
use sign_base::{CallId, NoMemory};
use signer_shared::Job;
use std::alloc::Global;

/// The lists of so many jobs, one for each worker: job after job goes to the next worker.
///
/// Errors: an allocation failed.
pub fn pool_work(alloc: Global, workers: u32, jobs: u64) -> Result<Vec<Vec<Job>>, NoMemory<()>>
    requires { 0 < workers }
    ensures { IfOk result (λ work. map (λ l. l.items) work.items ≡ pool_work workers jobs) }
{
    let mut work = empty_lists(alloc, workers)?;
    let count = u64::from(workers);
    for j in 0..jobs {
        let worker = (j % count) as u32;
        let job = pool_job(alloc, worker, j / count)?;
        work[worker as usize].push(job)?;
    }
    Ok(work)
}

fn empty_lists(alloc: Global, workers: u32) -> Result<Vec<Vec<Job>>, NoMemory<()>>
    ensures { IfOk result (λ work. map (λ l. l.items) work.items ≡ pool_work workers 0) }
{
    let mut work = Vec::with_capacity(alloc, workers as usize)?;
    for _worker in 0..workers {
        work.push_reserved(Vec::new(alloc));
    }
    Ok(work)
}

fn pool_job(alloc: Global, worker: u32, number: u64) -> Result<Job, NoMemory<()>>
    ensures { IfOk result (λ job. job ≡ pool_job worker number) }
{
    Ok(Job {
        call: CallId {
            handle: worker,
            number,
        },
        head: pool_head(alloc)?,
        expires_in: None,
    })
}
