//! All memory that finishing a pool takes, taken before anything changes.
ghost use Rattle.std.specs.Prelude.{◌≡◌, IfOk, map, length, vec_capacity};
ghost use Rattle.sign_pool.specs.Room.{HasRoom, IsRoomFor};

use crate::seat_books::{blank_notes, index_jobs};
use crate::seats::{Submitter, Worker};
use pool_books::{Answer, CallNotes, JobIndex, PoolJob};
use sequential_signer::SigningCredential;
use sign_base::NoMemory;
use signer_book::Pass;
use std::alloc::Global;

/// Room for what seats and queue hand out, an index of the submitted jobs, and a note for each answer's call.
#[derive(Drop)]
pub(crate) struct FinishRoom<K> {
    pub passes: Vec<Pass<K>>,
    pub answers: Vec<Vec<Answer>>,
    pub left: Vec<PoolJob>,
    pub submitted: Vec<Vec<PoolJob>>,
    pub index: Option<JobIndex>,
    pub notes: CallNotes,
}

impl<K: SigningCredential> FinishRoom<K> {
    /// Room for these seats, and for so many jobs that are left.
    pub(crate) fn new(
        alloc: Global,
        capacity: usize,
        submitters: &[Submitter],
        workers: &[Worker<K>],
    ) -> Result<FinishRoom<K>, NoMemory<()>>
        ensures { IfOk result (HasRoom capacity submitters.now workers.now) }
    {
        Ok(FinishRoom {
            passes: Vec::with_capacity(alloc, workers.len())?,
            answers: Vec::with_capacity(alloc, workers.len())?,
            left: Vec::with_capacity(alloc, capacity)?,
            submitted: Vec::with_capacity(alloc, submitters.len())?,
            index: index_jobs(alloc, submitters)?,
            notes: blank_notes(alloc, workers)?,
        })
    }
}

/// The passes and the answers of workers, in their order.
pub(crate) fn hand_out_workers<K: SigningCredential>(
    workers: Vec<Worker<K>>,
    mut passes: Vec<Pass<K>>,
    mut answers: Vec<Vec<Answer>>,
) -> (Vec<Pass<K>>, Vec<Vec<Answer>>)
    requires passes { IsRoomFor passes.items (vec_capacity passes) (length workers.items) }
    requires answers { IsRoomFor answers.items (vec_capacity answers) (length workers.items) }
    ensures passes { result.0.items ≡ map (λ w. w.pass) workers.items }
    ensures answers { result.1.items ≡ map (λ w. w.answers) workers.items }
{
    for worker in workers {
        passes.push_reserved(worker.pass);
        answers.push_reserved(worker.answers);
    }
    (passes, answers)
}

/// The jobs of submitters, in their order.
pub(crate) fn hand_out_submitters(
    submitters: Vec<Submitter>,
    mut submitted: Vec<Vec<PoolJob>>,
) -> Vec<Vec<PoolJob>>
    requires { IsRoomFor submitted.items (vec_capacity submitted) (length submitters.items) }
    ensures { result.items ≡ map (λ s. s.jobs) submitters.items }
{
    for submitter in submitters {
        submitted.push_reserved(submitter.jobs);
    }
    submitted
}
