//! Workers at a signer whose history is written away volume by volume.
ghost use Rattle.std.specs.Prelude.{◌≡◌, ◌++◌, List, map, length, IfOk};
ghost use Rattle.signer_book.specs.declared.pass.Receipt.{Receipt};
ghost use Rattle.signer_shared.specs.Serving.{IsServing};
ghost use Rattle.signer_shared.specs.Pools.{ServesLists};

use crate::gate::Gate;
use crate::job::{Job, Served};
use crate::rotating::RotatingSigner;
use crate::serve::serve_at;
use crate::slots::Slots;
use sequential_signer::{DeadlineRule, SigningCredential};
use sign_base::NoMemory;
use signer_book::Pass;
use std::sync::Wait;
use std::thread::Threads;

/// What workers leave: the pass and the counts of each list.
#[derive(Drop)]
pub struct Batch<K> {
    pub passes: Vec<Pass<K>>,
    pub served: Vec<Served>,
}

impl<K: SigningCredential, D: DeadlineRule<Credential = K>> RotatingSigner<K, D> {
    /// Serves the jobs in order, as `serve_jobs` does at a `SharedSigner`. It may wait for another thread.
    pub fn serve_jobs<G: Gate<K>, R: Wait>(
        &self,
        rt: &R,
        pass: &mut Pass<K>,
        jobs: &[Job],
        gate: &G,
        turns: u64,
    ) -> Served
        ensures { (added : List (Receipt K)) × (pass.new ≡ pass.old ++ added)
            × IsServing (G.meaning gate.now) turns jobs.now added result }
    {
        serve_at(rt, &self.volume, pass, jobs, gate, turns)
    }
}

impl<K, D> RotatingSigner<K, D>
where
    K: SigningCredential + Send + Sync,
    D: DeadlineRule<Credential = K> + Send + Sync,
{
    /// Serves each list of jobs by a worker of its own, with a pass of its own. It may wait for its threads.
    /// The signer is as open as it was: hand the passes, with those of all other steps since the last
    /// rotation, to `rotate` or `close`.
    ///
    /// Errors: an allocation failed before any worker was started. What the passes and the journal take is
    /// allocated as they grow: a worker that finds no memory stops, and says so in its counts.
    pub fn serve_all<G: Gate<K> + Sync, R: Threads + Wait + Sync>(
        &self,
        rt: &R,
        work: &[Vec<Job>],
        gate: &G,
        turns: u64,
    ) -> Result<Batch<K>, NoMemory<()>>
        ensures serves { IfOk result (λ batch. ServesLists (G.meaning gate.now) turns
            (map (λ l. l.items) work.now) batch.passes.items batch.served.items) }
        ensures passes { IfOk result (λ batch. length batch.passes.items ≡ length work.now) }
    {
        let mut slots = Slots::new(self.volume.alloc(), work.len())?;
        slots.serve(rt, &self.volume, work, gate, turns);
        let (passes, served) = slots.into_results();
        Ok(Batch { passes, served })
    }
}
