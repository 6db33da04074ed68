//! What a worker is to serve, and what it counts.
ghost use Rattle.std.specs.Prelude.{◌≡◌, ◌+◌, ◌<◌, ◌^◌, false};
ghost use Rattle.signer_shared.specs.Counting.{counted};

use crate::next_step::JobEnd;
use sign_base::{CallId, Head};
use std::time::Duration;

/// A call to be served. `expires_in` is how long the operation may take.
#[derive(Debug, Drop)]
pub struct Job {
    pub call: CallId,
    pub head: Head,
    pub expires_in: Option<Duration>,
}

/// How the jobs of a list ended.
#[derive(Clone, Copy, Debug, PartialEq, Eq)]
pub struct Served {
    pub done: u64,
    pub refused: u64,
    /// Jobs of which an event did not fit.
    pub not_now: u64,
    /// Jobs that were cancelled because a provider was not ready in time.
    pub given_up: u64,
    /// An allocation failed, and the work stopped at that job.
    pub out_of_memory: bool,
}

impl Served {
    pub(crate) fn new() -> Served
        ensures { result
            ≡ record { done = 0; refused = 0; not_now = 0; given_up = 0; out_of_memory = false } }
    {
        Served {
            done: 0,
            refused: 0,
            not_now: 0,
            given_up: 0,
            out_of_memory: false,
        }
    }

    pub(crate) fn count(&mut self, end: JobEnd)
        requires { self.old.done + self.old.refused + self.old.not_now + self.old.given_up + 1
            < 2 ^ 64 }
        ensures { self.new ≡ counted self.old end }
    {
        match end {
            JobEnd::Done => self.done += 1,
            JobEnd::Refused => self.refused += 1,
            JobEnd::NotNow => self.not_now += 1,
            JobEnd::GivenUp => self.given_up += 1,
            JobEnd::OutOfMemory { not_now } => {
                self.not_now += u64::from(not_now);
                self.out_of_memory = true;
            }
        }
    }
}
