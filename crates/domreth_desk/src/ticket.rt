//! A credential that somebody else keeps, and how long one has to last.
ghost use Rattle.std.specs.Prelude.{int_lt, option_and_then, ⊤};
ghost use Rattle.std.specs.Duration.{as_nanos};
ghost use Rattle.sign_base.specs.Moment.{add_moment};
ghost use Rattle.sequential_signer.specs.Deadline.{operation_end};

use sequential_signer::{DeadlineRule, SigningCredential, operation_end};
use sign_base::{NoMemory, Timestamp};
use std::alloc::Global;
use std::time::Duration;

/// A credential: the number that its keeper knows it by, and the moments before which it is good.
#[derive(Clone, Copy, Debug)]
pub struct Ticket {
    pub number: u64,
    /// It is handed out before this moment.
    pub fresh: Timestamp,
    /// It lasts to every moment before this one.
    pub lasts: Timestamp,
}

impl SigningCredential for Ticket {
    const NAME: &'static str = "Ticket";

    ghost valid = { λ ticket now. int_lt now ticket.fresh };

    ghost valid_at = { λ ticket moment now. int_lt moment ticket.lasts };

    ghost clones_freely = { λ _. ⊤ };

    fn is_valid(&self, now: Timestamp) -> bool {
        now < self.fresh
    }

    fn is_valid_at(&self, ts: Timestamp, _now: Timestamp) -> bool {
        ts < self.lasts
    }

    fn try_clone(&self, _alloc: Global) -> Result<Ticket, NoMemory<()>> {
        Ok(*self)
    }
}

/// A credential has to last this much longer than to the end of the operation.
#[derive(Clone, Copy, Debug)]
pub struct Margin {
    pub margin: Duration,
}

impl DeadlineRule for Margin {
    type Credential = Ticket;

    ghost deadline = { λ rule ticket duration now.
        option_and_then (λ end. add_moment end (as_nanos rule.margin)) (operation_end duration now) };

    fn required_valid_until(
        &self,
        _credential: &Ticket,
        expires_in: Option<Duration>,
        now: Timestamp,
    ) -> Option<Timestamp> {
        match operation_end(expires_in, now) {
            Some(end) => end.checked_add(self.margin),
            None => None,
        }
    }
}
