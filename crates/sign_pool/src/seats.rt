//! Who submits jobs, and who works on them.
ghost use Rattle.std.specs.Prelude.{◌≡◌, true};
ghost use Rattle.sign_pool.specs.Calls.{has_only_calls_of};

use crate::queue::Seat;
use pool_books::{Answer, PoolJob};
use signer_book::Pass;

/// Puts jobs into the queue, and keeps a copy of each, in order.
#[derive(Drop)]
pub struct Submitter {
    pub(crate) seat: Seat,
    pub(crate) number: u32,
    pub(crate) jobs: Vec<PoolJob>,
}

impl Submitter {
    /// The jobs that were submitted, in order.
    pub fn jobs(&self) -> &[PoolJob]
        ensures { result.now ≡ self.now.jobs.items }
    {
        self.jobs.as_slice()
    }

    /// The number of this submitter in its pool.
    pub fn number(&self) -> u32
        ensures { result ≡ self.now.number }
    {
        self.number
    }
}

/// Takes jobs out of the queue, and serves each as a call of its handle.
#[derive(Drop)]
pub struct Worker<K> {
    pub(crate) seat: Seat,
    pub(crate) handle: u32,
    pub(crate) pass: Pass<K>,
    pub(crate) answers: Vec<Answer>,
    ghost calls: { has_only_calls_of answers.items pass ≡ true },
}

impl<K> Worker<K> {
    /// The answers to the jobs that were taken, in order.
    pub fn answers(&self) -> &[Answer]
        ensures { result.now ≡ self.now.answers.items }
    {
        self.answers.as_slice()
    }

    /// The handle of which this worker's calls are.
    pub fn handle(&self) -> u32
        ensures { result ≡ self.now.handle }
    {
        self.handle
    }
}
