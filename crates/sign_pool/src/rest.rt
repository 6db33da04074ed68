//! Taking out of the queue what is left in it.
ghost use Rattle.std.specs.Prelude.{◌≡◌, ◌++◌, ◌∷◌, []};

use crate::queue::{JobQueue, PopStep};
use pool_books::PoolJob;
use std::sync::Wait;

/// Takes jobs out of the queue until it is empty, each to the end of the list. It may wait for a step at the
/// queue.
pub(crate) fn take_rest<R: Wait>(rt: &R, queue: &JobQueue, mut left: Vec<PoolJob>) -> Vec<PoolJob> {
    let mut seat = queue.pass();
    for _ in rt.forever() {
        let Some(job) = queue.pop_as::<PopStep, R>(rt, &mut seat) else {
            return left;
        };
        keep(rt, &mut left, job);
    }
    unreachable!()
}

/// Puts the job at the end. There is room for as many jobs as the queue holds; for one more it waits, since a
/// job that was taken is not to be lost.
fn keep<R: Wait>(rt: &R, left: &mut Vec<PoolJob>, job: PoolJob)
    ensures { left.new.items ≡ left.old.items ++ job ∷ [] }
{
    let mut job = job;
    for _ in rt.forever() {
        match left.push(job) {
            Ok(()) => return,
            Err(failed) => job = failed.value,
        }
    }
    unreachable!()
}
