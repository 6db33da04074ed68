//! Taking jobs out of the queue and serving them.
ghost use Rattle.std.specs.Prelude.{◌≡◌, ◌<◌, ◌+◌, ◌^◌, Some, length, vec_capacity, if◌then◌else◌};
ghost use Rattle.crossbeam_queue.specs.Passes.{IsPassOf};
ghost use Rattle.pool_books.specs.declared.answer.Outcome.TheVariants.{GivenUp, OutOfMemory};
ghost use Rattle.sign_pool.specs.Work.{outcome_of, last_reply, last_place, Serves, Works};

use crate::pool::Pool;
use crate::queue::PopStep;
use crate::seats::Worker;
use pool_books::{Answer, Outcome, PoolJob, Ticket};
use sequential_signer::{DeadlineRule, Reply, SigningCredential};
use sign_base::CallId;
use signer_book::Receipt;
use signer_shared::{Gate, Job, serve_jobs};
use std::sync::Wait;

/// What a worker found in the queue.
#[derive(Clone, Copy, Debug, PartialEq, Eq)]
pub enum Work {
    /// The job with this ticket was taken and answered.
    Served(Ticket),
    /// The queue answered that it is empty.
    Empty,
    /// An allocation failed, before a job was taken.
    OutOfMemory,
}

impl<K: SigningCredential, D: DeadlineRule<Credential = K>> Pool<K, D> {
    /// Takes one job and serves it as `serve_jobs` does: the seat's first job is call 1 of its handle, and so
    /// on. It may wait for another thread.
    ///
    /// `Empty` and `OutOfMemory` add no answer and no receipt.
    ///
    /// Requires a seat of this pool.
    pub fn work<G: Gate<K>, R: Wait>(
        &self,
        rt: &R,
        seat: &mut Worker<K>,
        gate: &G,
        turns: u64,
    ) -> Work
        requires { IsPassOf self.now.queue seat.old.seat }
        ensures seat { IsPassOf self.now.queue seat.new.seat }
        ensures works { Works (G.meaning gate.now) turns seat.old seat.new result }
    {
        if seat.answers.reserve(1).is_err() {
            return Work::OutOfMemory;
        }
        let Some(job) = self.queue.pop_as::<PopStep, R>(rt, &mut seat.seat) else {
            return Work::Empty;
        };
        let ticket = job.ticket;
        self.serve(rt, seat, gate, turns, job);
        Work::Served(ticket)
    }

    /// Serves a job that was taken. There is room for its answer.
    fn serve<G: Gate<K>, R: Wait>(
        &self,
        rt: &R,
        seat: &mut Worker<K>,
        gate: &G,
        turns: u64,
        job: PoolJob,
    )
        requires { length seat.old.answers.items < vec_capacity seat.old.answers }
        ensures seat { seat.new.seat ≡ seat.old.seat }
        ensures serves { Serves (G.meaning gate.now) turns seat.old seat.new job }
    {
        let PoolJob {
            ticket,
            head,
            expires_in,
        } = job;
        let call = CallId {
            handle: seat.handle,
            number: seat.answers.len() as u64 + 1,
        };
        let jobs = [Job {
            call,
            head,
            expires_in,
        }];
        let before = seat.pass.receipts().len();
        let served = serve_jobs(rt, &self.shared, &mut seat.pass, &jobs, gate, turns);
        let added = &seat.pass.receipts()[before..];
        let (last, outcome) = answer_of(added, before, served.out_of_memory);
        seat.answers.push_reserved(Answer {
            ticket,
            call,
            last,
            outcome,
        });
    }
}

/// The place of a call's last receipt, and how its job ended. Its receipts come behind so many others.
fn answer_of<K>(added: &[Receipt<K>], before: usize, out_of_memory: bool) -> (Option<u64>, Outcome)
    requires { before + length added.now < 2 ^ 64 }
    ensures last { result.0 ≡ last_place before added.now }
    ensures outcome { result.1 ≡ outcome_of (last_reply added.now) out_of_memory }
{
    let count = added.len();
    if count == 0 {
        return (None, without_reply(out_of_memory));
    }
    let last = count - 1;
    let outcome = outcome_of(&added[last].entry.reply, out_of_memory);
    (Some((before + last) as u64), outcome)
}

/// How a job ended whose call was answered this last.
fn outcome_of<K>(reply: &Reply<K>, out_of_memory: bool) -> Outcome
    ensures { result ≡ outcome_of (Some reply.now) out_of_memory }
{
    match reply {
        Reply::Done { .. } => Outcome::Done,
        Reply::Refused { .. } => Outcome::Refused,
        Reply::NotNow => Outcome::NotNow,
        _ => without_reply(out_of_memory),
    }
}

/// How a job ended that was neither done, refused nor answered `NotNow`.
fn without_reply(out_of_memory: bool) -> Outcome
    ensures { result ≡ (if out_of_memory then OutOfMemory else GivenUp) }
{
    if out_of_memory {
        Outcome::OutOfMemory
    } else {
        Outcome::GivenUp
    }
}
