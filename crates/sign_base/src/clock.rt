//! Where moments come from. A clock may go back, and nothing is claimed of it but what its type
//! tells; code that reads one is proved for every moment.
ghost use Rattle.std.specs.Prelude.{◌≡◌, ℤ, pos, ◌<◌, length, ⊤};
ghost use Rattle.sign_base.specs.Clock.{ReadsFirst, reading_after};

use crate::Timestamp;
use std::marker::Model;
use std::time::{self, Duration};

/// A clock of the world.
pub trait Clock {
    /// What a reading may give: the clock before it, the clock after it, the moment. Where a clock
    /// says nothing, any moment.
    ghost gives: { Self → Self → ℤ → Type 0 } = { λ _ _ _. ⊤ };

    /// The moment now.
    fn now(&mut self) -> Timestamp
        ensures { gives self.old self.new result };
}

/// A clock that gives listed moments, each in turn and then the last again.
#[derive(Debug, Drop)]
pub struct ListClock {
    moments: Vec<Timestamp>,
    at: usize,
}

impl Model for ListClock {
    ghost use Rattle.std.specs.Prelude.{ℤ, List, drop, length, ◌<◌};

    ghost Value = { List ℤ };

    ghost view = { λ c. drop c.at c.moments.items };

    ghost invariant = { λ c. c.at < length c.moments.items };
}

impl ListClock {
    /// A clock of at least one moment.
    pub fn new(moments: Vec<Timestamp>) -> ListClock
        requires { 0 < length moments.items }
        ensures { result ≡ moments.items }
    {
        ListClock { moments, at: 0 }
    }
}

impl Clock for ListClock {
    ghost gives = { ReadsFirst };

    fn now(&mut self) -> Timestamp {
        let now = self.moments[self.at];
        if self.at + 1 < self.moments.len() {
            self.at += 1;
        }
        now
    }
}

/// The system's clock, seen as its last reading. Where it cannot be read or is out of range, the
/// last reading stands, at first the start of 1970.
#[derive(Drop)]
pub struct SystemClock<R> {
    system: R,
    last: Timestamp,
}

impl<R> Model for SystemClock<R> {
    ghost use Rattle.std.specs.Prelude.{ℤ};

    ghost Value = { ℤ };

    ghost view = { λ c. c.last };
}

impl<R: time::Clock> SystemClock<R> {
    pub fn new(system: R) -> SystemClock<R>
        ensures { result ≡ pos 0 }
    {
        SystemClock {
            system,
            last: Timestamp::start_of_1970(),
        }
    }
}

impl<R: time::Clock> Clock for SystemClock<R> {
    ghost gives = { λ _ last now. now ≡ last };

    fn now(&mut self) -> Timestamp {
        self.last = reading(self.last, self.system.since_1970().ok());
        self.last
    }
}

/// The reading so long after the start of 1970; the last one where that is not known or out of range.
fn reading(last: Timestamp, since_1970: Option<Duration>) -> Timestamp
    ensures { result ≡ reading_after last since_1970 }
{
    match since_1970 {
        Some(since_1970) => Timestamp::start_of_1970()
            .checked_add(since_1970)
            .unwrap_or(last),
        None => last,
    }
}
