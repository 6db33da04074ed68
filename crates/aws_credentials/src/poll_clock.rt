//! The moment of a poll, which its driver sets before.
ghost use Rattle.std.specs.Prelude.{◌≡◌, ⊤};

use crate::SigningClock;
use sign_base::{NoMemory, Timestamp};
use std::alloc::Global;
use std::cell::Cell;
use std::rc::Rc;

/// The moment of the poll. Its driver keeps a clone, and sets it to the moment that it hands to the poll: so
/// the date of the signature and the moment by which the credential is judged are one.
#[derive(Drop)]
pub struct PollClock {
    told: Rc<Cell<Timestamp>>,
}

impl PollClock {
    /// A clock that tells this moment until it is set.
    pub fn new(alloc: Global, now: Timestamp) -> Result<PollClock, NoMemory<()>> {
        Ok(PollClock {
            told: Rc::new(alloc, Cell::new(now))?,
        })
    }

    /// Sets it and its clones.
    pub fn set(&self, now: Timestamp) {
        self.told.set(now);
    }

    /// Another handle on the same clock, for the context of a signer.
    pub fn share(&self) -> Result<PollClock, NoMemory<()>> {
        Ok(PollClock {
            told: self.told.clone()?,
        })
    }
}

/// Contracts know nothing of what a cell holds, so it may tell any moment.
impl SigningClock for PollClock {
    ghost tells = { λ clock moment. ⊤ };

    fn moment(&self) -> Timestamp {
        self.told.get()
    }
}
