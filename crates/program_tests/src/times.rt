//! What no clause sees and a clock does: that headers whose names were picked to collide cost little where
//! keys are handed in, and that a line is not moved at each read.
mod heads;
mod lines;
mod maps;
mod names;
mod objects;
mod signers;
mod views;

use std::alloc::Global;
use std::process::Abort;
use std::time::{Clock, Duration, Instant};

/// How often each work is timed; the least time counts.
const TIMES: u32 = 5;

/// A work that can be done again and again.
trait Work {
    /// Does it, and says whether it went well.
    fn is_done(&mut self, rt: &impl Abort, alloc: Global) -> bool;
}

/// What a work takes.
fn time<R: Abort + Clock, W: Work>(rt: &R, alloc: Global, work: &mut W) -> Duration {
    let mut least = Duration::MAX;
    for _ in 0..TIMES {
        let start = Instant::now(rt).expect(rt, "a clock");
        assert!(rt; work.is_done(rt, alloc));
        least = least.min(start.elapsed(rt).expect(rt, "a clock"));
    }
    least
}

/// The one takes at most three times as long as the other.
fn is_alike(rt: &impl Abort, one: Duration, other: Duration) {
    assert!(rt; one / 3 <= other, "{one:?} beside {other:?}");
}
