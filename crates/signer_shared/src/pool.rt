//! A pool of workers: a worker and a pass for each list of jobs, and the closed signer.
ghost use Rattle.std.specs.Prelude.{◌≡◌, ◌<◌, map, length, IfOk, IfErr};
ghost use Rattle.sequential_signer.specs.Policy.{policy_of};
ghost use Rattle.desk_parts.specs.Tables.{setup_of};
ghost use Rattle.sign_desk.specs.DeskState.{Represents};
ghost use Rattle.signer_book.specs.Close.{IsCloseCause};
ghost use Rattle.signer_book.specs.Settled.{IsSettled};
ghost use Rattle.signer_shared.specs.Pools.{ServesLists, MatchPoolRefused};

use crate::gate::Gate;
use crate::job::{Job, Served};
use crate::shared::SharedSigner;
use crate::slots::Slots;
use sequential_signer::{DeadlineRule, SigningCredential};
use sign_base::EqualByValue;
use signer_book::{CloseRefused, Settled};
use std::sync::Wait;
use std::thread::Threads;

/// The closed signer, and the counts of each list.
#[derive(Drop)]
pub struct Pooled<K: SigningCredential, D: DeadlineRule<Credential = K>> {
    pub settled: Settled<K, D>,
    pub served: Vec<Served>,
}

/// Why there is no closed signer.
#[derive(Drop)]
pub enum PoolRefused<K: SigningCredential, D: DeadlineRule<Credential = K>> {
    /// An allocation failed before any worker was started.
    OutOfMemory(SharedSigner<K, D>),
    /// The workers are done, and the signer was not closed.
    Close {
        refused: CloseRefused<K, D>,
        served: Vec<Served>,
    },
}

/// Serves each list of jobs by a worker of its own, with a pass of its own, and closes the signer
/// with the passes in the order of the lists. It may wait for its threads.
///
/// What it needs for the workers is allocated before the first of them is started. What the passes
/// and the journal take is allocated as they grow: a worker that finds no memory stops, and says so
/// in its counts.
pub fn serve_all<
    K: SigningCredential + EqualByValue + Send + Sync,
    D: DeadlineRule<Credential = K> + EqualByValue + Send + Sync,
    G: Gate<K> + Sync,
    R: Threads + Wait + Sync,
>(
    rt: &R,
    shared: SharedSigner<K, D>,
    work: &[Vec<Job>],
    gate: &G,
    turns: u64,
) -> Result<Pooled<K, D>, PoolRefused<K, D>>
    requires { length work.now < 4294967295 }
    ensures settled { IfOk result (λ p. IsSettled p.settled.journal.items p.settled.passes.items) }
    ensures desk { IfOk result (λ p. (setup_of p.settled.desk ≡ setup_of shared)
        × Represents (policy_of K.valid K.valid_at D.deadline)
        p.settled.desk p.settled.journal.items) }
    ensures serves { IfOk result (λ p. ServesLists (G.meaning gate.now) turns
        (map (λ l. l.items) work.now) p.settled.passes.items p.served.items) }
    ensures refused { IfErr result (λ r. MatchPoolRefused r (λ plan. plan ≡ shared) (λ close served.
        (close.plan ≡ shared)
        × Represents (policy_of K.valid K.valid_at D.deadline) close.book.desk close.book.journal
        × IsCloseCause shared close.book close.passes.items close.why
        × ServesLists (G.meaning gate.now) turns
        (map (λ l. l.items) work.now) close.passes.items served)) }
{
    let Ok(mut slots) = Slots::new(shared.book.alloc(), work.len()) else {
        return Err(PoolRefused::OutOfMemory(shared));
    };
    slots.serve(rt, &shared.book, work, gate, turns);
    let (passes, served) = slots.into_results();
    match shared.close(passes) {
        Ok(settled) => Ok(Pooled { settled, served }),
        Err(refused) => Err(PoolRefused::Close { refused, served }),
    }
}
