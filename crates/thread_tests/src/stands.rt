//! Pools with the seats of two threads.
ghost use Rattle.std.specs.Prelude.{◌≡◌, ◌∷◌, [], All, IfSome};
ghost use Rattle.crossbeam_queue.specs.Passes.{IsPassOf};

use crate::gates::TestGate;
use crate::report::Report;
use crate::signers::{KeyPool, pool_of};
use fixtures::{Key, UntilNow};
use sign_base::Head;
use sign_pool::{
    FinishError, FinishRefused, Finished, SubmitRefused, Submitter, Ticket, Work, Worker,
};
use std::alloc::Global;
use std::sync::Wait;

/// What one thread submits with and works with.
#[derive(Drop)]
pub struct Slot {
    pub submitter: Submitter,
    pub worker: Worker<Key>,
    /// Whether the thread met a full queue.
    pub met_full: bool,
}

/// A pool and the slots of its two threads, one for each handle.
#[derive(Drop)]
pub struct Stand {
    pub pool: KeyPool,
    pub first: Slot,
    pub second: Slot,
    ghost first_submits: { IsPassOf pool.queue first.submitter.seat },
    ghost first_works: { IsPassOf pool.queue first.worker.seat },
    ghost second_submits: { IsPassOf pool.queue second.submitter.seat },
    ghost second_works: { IsPassOf pool.queue second.worker.seat },
}

/// A pool whose queue holds so many jobs, with both slots. `None` where an allocation failed.
pub fn stand_of(alloc: Global, capacity: usize) -> Option<Stand> {
    let mut pool = pool_of(alloc, capacity)?;
    let first = slot_of(&mut pool, 0)?;
    let second = slot_of(&mut pool, 1)?;
    Some(Stand {
        pool,
        first,
        second,
    })
}

fn slot_of(pool: &mut KeyPool, handle: u32) -> Option<Slot>
    ensures submits { IfSome result (λ slot. IsPassOf pool.new.queue slot.submitter.seat) }
    ensures works { IfSome result (λ slot. IsPassOf pool.new.queue slot.worker.seat) }
    ensures queue { IfSome result (λ slot. pool.new.queue ≡ pool.old.queue) }
{
    let submitter = pool.submitter().ok()?;
    let worker = pool.worker(handle).ok()?;
    Some(Slot {
        submitter,
        worker,
        met_full: false,
    })
}

impl Stand {
    /// Submits a head by the first slot, or at 1 by the second.
    pub fn submit<R: Wait>(
        &mut self,
        rt: &R,
        place: u32,
        head: Head,
    ) -> Result<Ticket, SubmitRefused> {
        if place == 0 {
            self.pool.submit(rt, &mut self.first.submitter, head, None)
        } else {
            self.pool.submit(rt, &mut self.second.submitter, head, None)
        }
    }

    /// Works on one job by the first slot, or at 1 by the second, in one turn.
    pub fn work<R: Wait>(&mut self, rt: &R, place: u32, gate: &TestGate<Key>) -> Work {
        if place == 0 {
            self.pool.work(rt, &mut self.first.worker, gate, 1)
        } else {
            self.pool.work(rt, &mut self.second.worker, gate, 1)
        }
    }

    /// Finishes the pool with its seats, once it refused to be finished with too few, if need be at the
    /// second try. `None` where an allocation failed outside of that.
    pub fn finish<R: Wait>(self, rt: &R, alloc: Global) -> Option<Report> {
        let Stand {
            pool,
            first,
            second,
            ..
        } = self;
        let (submitters, workers) = seats_of(alloc, first, second)?;
        let Some(pool) = without_seats(rt, alloc, pool) else {
            return Some(Report::unfinished(alloc));
        };
        match finished(rt, pool, submitters, workers) {
            Some(finished) => Report::of(alloc, &finished),
            None => Some(Report::unfinished(alloc)),
        }
    }
}

/// The seats of both slots. `None` where an allocation failed.
fn seats_of(alloc: Global, first: Slot, second: Slot) -> Option<(Vec<Submitter>, Vec<Worker<Key>>)>
    ensures submitters { IfSome result (λ seats. seats.0.items ≡ first.submitter ∷ second.submitter ∷ []) }
    ensures workers { IfSome result (λ seats. seats.1.items ≡ first.worker ∷ second.worker ∷ []) }
{
    let mut submitters = Vec::with_capacity(alloc, 2).ok()?;
    let mut workers = Vec::with_capacity(alloc, 2).ok()?;
    submitters.push_reserved(first.submitter);
    submitters.push_reserved(second.submitter);
    workers.push_reserved(first.worker);
    workers.push_reserved(second.worker);
    Some((submitters, workers))
}

/// The pool, handed back since its seats are missing. `None` where it says something else.
fn without_seats<R: Wait>(rt: &R, alloc: Global, pool: KeyPool) -> Option<KeyPool>
    ensures { IfSome result (λ back. back ≡ pool) }
{
    let Err(refused) = pool.finish(rt, Vec::new(alloc), Vec::new(alloc)) else {
        return None;
    };
    let FinishRefused::Early { pool, why, .. } = refused else {
        return None;
    };
    let missing = FinishError::Seats {
        submitters: 2,
        workers: 2,
    };
    if why == missing { Some(pool) } else { None }
}

/// The pool finished with these seats, if need be at the second try.
fn finished<R: Wait>(
    rt: &R,
    pool: KeyPool,
    submitters: Vec<Submitter>,
    workers: Vec<Worker<Key>>,
) -> Option<Finished<Key, UntilNow>>
    requires submitters { All (λ s. IsPassOf pool.queue s.seat) submitters.items }
    requires workers { All (λ w. IsPassOf pool.queue w.seat) workers.items }
{
    match pool.finish(rt, submitters, workers) {
        Err(
            FinishRefused::Early {
                pool,
                submitters,
                workers,
                ..
            },
        ) => pool.finish(rt, submitters, workers).ok(),
        finished => finished.ok(),
    }
}
