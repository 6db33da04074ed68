//! A pool, and its seats.
ghost use Rattle.std.specs.Prelude.{◌≡◌, ◌<◌, ◌≤◌, ◌+◌, [], true, false, length, replicate, slice_set};
ghost use Rattle.std.specs.Prelude.{slice_get, Some, MatchOption, IfOk, IfErr, OnErr};
ghost use Rattle.crossbeam_queue.specs.Passes.{view, IsPassOf, ruled_capacity};

use crate::queue::JobQueue;
use crate::seats::{Submitter, Worker};
use sequential_signer::{DeadlineRule, SigningCredential};
use sign_base::NoMemory;
use sign_desk::Desk;
use signer_book::Book;
use signer_shared::SharedSigner;
use std::alloc::Global;

/// So many passes can be closed.
const MOST_WORKERS: u32 = u32::MAX - 1;

/// A shared signer behind a bounded queue of jobs.
#[derive(Drop)]
pub struct Pool<K: SigningCredential, D: DeadlineRule<Credential = K>> {
    pub(crate) shared: SharedSigner<K, D>,
    pub(crate) queue: JobQueue,
    pub(crate) submitters: u32,
    pub(crate) workers: u32,
    /// A mark for each handle of the plan that has a worker.
    pub(crate) taken: Vec<bool>,
    pub(crate) alloc: Global,
    ghost each_handle: { length taken.items ≡ length shared.handles },
    ghost few: { workers < 4294967295 },
}

/// Why there is no worker for a handle.
#[derive(Clone, Copy, Debug, PartialEq, Eq)]
pub enum WorkerRefused {
    /// The plan has no such handle.
    NoHandle(u32),
    /// An earlier worker has the handle.
    HandleTaken(u32),
    OutOfMemory,
}

impl<K: SigningCredential, D: DeadlineRule<Credential = K>> Pool<K, D> {
    ghost use Rattle.desk_parts.specs.Tables.{setup_of};
    ghost use Rattle.sequential_signer.specs.Policy.{policy_of};
    ghost use Rattle.sign_desk.specs.DeskState.{Represents};
    ghost use Rattle.sign_pool.specs.Pools.{IsWorkerRefusal};

    /// A pool without seats, whose queue holds so many jobs.
    ///
    /// Errors: an allocation failed. Book and plan are handed back.
    ///
    /// Requires an empty journal, a plan to which nothing has happened, with the setup of the book's
    /// desk, and a capacity of 1 to 65,536.
    pub fn new(
        book: Book<K, D>,
        plan: Desk<K, D>,
        capacity: usize,
    ) -> Result<Pool<K, D>, NoMemory<(Book<K, D>, Desk<K, D>)>>
        requires journal { book.journal ≡ [] }
        requires fresh { Represents (policy_of K.valid K.valid_at D.deadline) plan [] }
        requires setup { setup_of plan ≡ setup_of book.desk }
        requires capacity { (0 < capacity) × (capacity ≤ 65536) }
        ensures plan { IfOk result (λ pool. pool.shared ≡ plan) }
        ensures capacity { IfOk result (λ pool. ruled_capacity pool.queue ≡ capacity) }
        ensures seats { IfOk result (λ pool. (pool.submitters ≡ 0) × (pool.workers ≡ 0)
            × (pool.taken.items ≡ replicate (length plan.handles) false)) }
        ensures back { IfErr result (λ refused. refused.back ≡ (book, plan)) }
    {
        let alloc = plan.alloc();
        let Ok(taken) = Vec::from_elem(alloc, false, plan.handles() as usize) else {
            return Err(NoMemory { back: (book, plan) });
        };
        let Ok((queue, _)) = JobQueue::ruled(alloc, capacity) else {
            return Err(NoMemory { back: (book, plan) });
        };
        Ok(Pool {
            shared: SharedSigner::new(book, plan),
            queue,
            submitters: 0,
            workers: 0,
            taken,
            alloc,
        })
    }

    /// The next submitter. They are numbered from 0.
    pub fn submitter(&mut self) -> Result<Submitter, NoMemory<()>>
        ensures seat { IfOk result
            (λ s. IsPassOf self.new.queue s.seat × (s.number ≡ self.old.submitters) × (s.jobs.items ≡ [])) }
        ensures unused { IfOk result (λ s. view s.seat ≡ record { put = []; taken = [] }) }
        ensures pool { IfOk result
            (λ s. (self.new.shared ≡ self.old.shared) × (self.new.queue ≡ self.old.queue)) }
        ensures made { IfOk result (λ s. (self.new.submitters ≡ self.old.submitters + 1)
            × (self.new.workers ≡ self.old.workers) × (self.new.taken.items ≡ self.old.taken.items)) }
        ensures unchanged { OnErr result (self.new ≡ self.old) }
    {
        let number = self.submitters;
        let Some(more) = number.checked_add(1) else {
            return Err(NoMemory { back: () });
        };
        self.submitters = more;
        Ok(Submitter {
            seat: self.queue.pass(),
            number,
            jobs: Vec::new(self.alloc),
        })
    }

    /// A worker whose calls are of this handle of the plan.
    ///
    /// Errors, the first that holds: `NoHandle`, `HandleTaken`, `OutOfMemory`. An error changes nothing.
    pub fn worker(&mut self, handle: u32) -> Result<Worker<K>, WorkerRefused>
        ensures seat { IfOk result (λ w. IsPassOf self.new.queue w.seat × (w.handle ≡ handle) × (w.pass ≡ [])
            × (w.answers.items ≡ [])) }
        ensures unused { IfOk result (λ w. view w.seat ≡ record { put = []; taken = [] }) }
        ensures free { IfOk result (λ w. (handle < length self.old.shared.handles)
            × (slice_get self.old.taken.items handle ≡ Some false)) }
        ensures pool { IfOk result
            (λ w. (self.new.shared ≡ self.old.shared) × (self.new.queue ≡ self.old.queue)) }
        ensures made { IfOk result (λ w. (self.new.submitters ≡ self.old.submitters)
            × (self.new.workers ≡ self.old.workers + 1)
            × (self.new.taken.items ≡ slice_set self.old.taken.items handle true)) }
        ensures refused { IfErr result
            (λ why. IsWorkerRefusal (length self.old.taken.items) self.old.taken.items handle why) }
        ensures unchanged { OnErr result (self.new ≡ self.old) }
    {
        if let Some(why) = self.refusal(handle) {
            return Err(why);
        }
        let Ok(pass) = self.shared.pass() else {
            return Err(WorkerRefused::OutOfMemory);
        };
        let seat = self.queue.pass();
        self.taken[handle as usize] = true;
        self.workers += 1;
        Ok(Worker {
            seat,
            handle,
            pass,
            answers: Vec::new(self.alloc),
        })
    }

    /// Why no worker may have the handle, if there is a cause.
    fn refusal(&self, handle: u32) -> Option<WorkerRefused>
        ensures { MatchOption result ((handle < length self.now.taken.items)
            × (slice_get self.now.taken.items handle ≡ Some false) × (self.now.workers < 4294967294))
            (λ why. IsWorkerRefusal (length self.now.taken.items) self.now.taken.items handle why) }
    {
        let Some(taken) = self.taken.get(handle as usize) else {
            return Some(WorkerRefused::NoHandle(handle));
        };
        if *taken {
            return Some(WorkerRefused::HandleTaken(handle));
        }
        if self.workers >= MOST_WORKERS {
            return Some(WorkerRefused::OutOfMemory);
        }
        None
    }
}
