//! Putting jobs into the queue.
ghost use Rattle.std.specs.Prelude.{◌≡◌, length, IfOk, IfErr, OnErr};
ghost use Rattle.crossbeam_queue.specs.Passes.{IsPassOf};
ghost use Rattle.sign_pool.specs.Seats.{Submits, IsSameSubmitter};

use crate::pool::Pool;
use crate::queue::PushStep;
use crate::seats::Submitter;
use pool_books::{PoolJob, Ticket};
use sequential_signer::{DeadlineRule, SigningCredential};
use sign_base::Head;
use std::sync::Wait;
use std::time::Duration;

/// Why a job is not in the queue.
#[derive(Clone, Copy, Debug, PartialEq, Eq)]
pub enum SubmitError {
    /// An allocation failed, before the queue was touched.
    OutOfMemory,
    /// The queue answered that it is full.
    Full,
}

/// A job that was not submitted: what was handed in is handed back.
#[derive(Debug, Drop)]
pub struct SubmitRefused {
    pub why: SubmitError,
    pub head: Head,
    pub expires_in: Option<Duration>,
}

impl<K: SigningCredential, D: DeadlineRule<Credential = K>> Pool<K, D> {
    /// Puts a job last into the queue, as this submitter's next, and keeps a copy of it. It may wait for
    /// another thread's step at the queue.
    ///
    /// Errors: `OutOfMemory`, `Full`. Both leave the seat as it was.
    ///
    /// Requires a seat of this pool.
    pub fn submit<R: Wait>(
        &self,
        rt: &R,
        seat: &mut Submitter,
        head: Head,
        expires_in: Option<Duration>,
    ) -> Result<Ticket, SubmitRefused>
        requires { IsPassOf self.now.queue seat.old.seat }
        ensures seat { IsPassOf self.now.queue seat.new.seat }
        ensures ticket { IfOk result
            (λ ticket. ticket ≡ record { submitter = seat.old.number; number = length seat.old.jobs.items }) }
        ensures submits { IfOk result (λ ticket. Submits seat.old seat.new
            (record { ticket = ticket; head = head; expires_in = expires_in })) }
        ensures back { IfErr result (λ refused. (refused.head ≡ head) × (refused.expires_in ≡ expires_in)) }
        ensures unchanged { OnErr result (IsSameSubmitter seat.old seat.new) }
    {
        let Ok(copy) = head.try_clone(self.alloc) else {
            return Err(SubmitRefused {
                why: SubmitError::OutOfMemory,
                head,
                expires_in,
            });
        };
        if seat.jobs.reserve(1).is_err() {
            return Err(SubmitRefused {
                why: SubmitError::OutOfMemory,
                head,
                expires_in,
            });
        }
        let ticket = Ticket {
            submitter: seat.number,
            number: seat.jobs.len() as u64,
        };
        let job = PoolJob {
            ticket,
            head,
            expires_in,
        };
        match self.queue.push_as::<PushStep, R>(rt, &mut seat.seat, job) {
            Ok(()) => {
                seat.jobs.push_reserved(PoolJob {
                    ticket,
                    head: copy,
                    expires_in,
                });
                Ok(ticket)
            }
            Err(job) => Err(SubmitRefused {
                why: SubmitError::Full,
                head: job.head,
                expires_in: job.expires_in,
            }),
        }
    }
}
