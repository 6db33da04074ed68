//! The queue through which a pool's jobs go.
ghost use Rattle.std.specs.Prelude.{◌≡◌, ◌++◌, ◌∷◌, [], ⊤};

use crossbeam_queue::protocol::{Lesson, Outcome, Protocol};
use crossbeam_queue::{Pass, RuledArrayQueue};
use pool_books::PoolJob;
use std::collections::LinkedList;

/// What was put in and taken out at one place of the queue. No value of it is made.
pub struct SeatHistory {
    pub put: LinkedList<PoolJob>,
    pub taken: LinkedList<PoolJob>,
}

/// The rule of the queue. It asks nothing: what several seats did is compared when the pool is finished.
pub struct AnyOrder;

impl Protocol<PoolJob, SeatHistory> for AnyOrder {
    ghost use Rattle.std.specs.Prelude.{[], ⊤};

    ghost holds = { λ jobs histories. ⊤ };

    ghost first = { record { put = []; taken = [] } };
}

/// A push of one job.
pub(crate) struct PushStep;

impl Outcome<PoolJob, SeatHistory> for PushStep {
    ghost then = { λ before job after. after ≡ record before { put = before.put ++ job ∷ [] } };
}

impl Lesson<PoolJob, SeatHistory> for PushStep {
    ghost fact = { λ history jobs. ⊤ };
}

/// A pop of one job.
pub(crate) struct PopStep;

impl Outcome<PoolJob, SeatHistory> for PopStep {
    ghost then = { λ before job after. after ≡ record before { taken = before.taken ++ job ∷ [] } };
}

impl Lesson<PoolJob, SeatHistory> for PopStep {
    ghost fact = { λ history jobs. ⊤ };
}

/// The bounded queue. What each seat did at it is its history, which contracts alone see.
pub(crate) type JobQueue = RuledArrayQueue<PoolJob, SeatHistory, AnyOrder>;

/// A place at the queue, of one submitter or one worker.
pub(crate) type Seat = Pass<PoolJob, SeatHistory>;
