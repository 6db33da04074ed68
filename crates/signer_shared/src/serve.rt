//! Serving a list of jobs at a signer that threads share.
ghost use Rattle.std.specs.Prelude.{◌≡◌, ◌++◌, List};
ghost use Rattle.signer_shared.specs.Serving.{IsServing};
ghost use Rattle.signer_book.specs.declared.pass.Receipt.{Receipt};

use crate::gate::Gate;
use crate::job::{Job, Served};
use crate::job_server::JobServer;
use crate::shared::SharedSigner;
use crate::surroundings::SignerAndGate;
use crate::turn_lock::{Journaled, TurnLock};
use sequential_signer::{DeadlineRule, SigningCredential};
use signer_book::Pass;
use std::marker::PhantomData;
use std::sync::Wait;

/// Begins, polls, loads and signs the jobs in order, with the answers of the gate. It may wait for
/// another thread.
///
/// A poll that is answered `Pending` is made again. A provider that is to be asked has so many turns
/// to answer, from 0 on; a call whose provider has not answered by the last of them is cancelled. A
/// job ends with an event that is answered `NotNow`. Where an allocation fails the call is cancelled,
/// and the work stops; if the cancel finds no memory either, the call stays live.
pub fn serve_jobs<K: SigningCredential, D: DeadlineRule<Credential = K>, G: Gate<K>, R: Wait>(
    rt: &R,
    shared: &SharedSigner<K, D>,
    pass: &mut Pass<K>,
    jobs: &[Job],
    gate: &G,
    turns: u64,
) -> Served
    ensures { (added : List (Receipt K)) × (pass.new ≡ pass.old ++ added)
        × IsServing (G.meaning gate.now) turns jobs.now added result }
{
    serve_at(rt, &shared.book, pass, jobs, gate, turns)
}

/// Serves the jobs at what lies under the lock.
pub(crate) fn serve_at<K: SigningCredential, J: Journaled<K>, G: Gate<K>, R: Wait>(
    rt: &R,
    signer: &TurnLock<J>,
    pass: &mut Pass<K>,
    jobs: &[Job],
    gate: &G,
    turns: u64,
) -> Served
    ensures { (added : List (Receipt K)) × (pass.new ≡ pass.old ++ added)
        × IsServing (G.meaning gate.now) turns jobs.now added result }
{
    let around = SignerAndGate {
        rt,
        signer,
        gate,
        of: PhantomData,
    };
    let server = JobServer {
        rt,
        around: &around,
        turns,
    };
    server.serve_each(&mut (), pass, jobs)
}
