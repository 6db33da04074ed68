//! A clock that threads share: that of a runtime.
ghost use Rattle.std.specs.Prelude.{⊤};

use aws_credentials::SigningClock;
use object_gate::GateClock;
use sign_base::{Clock, SystemClock, Timestamp};
use std::time;

/// Counts what providers are asked.
pub trait Counter {
    fn count(&self);
}

/// Dates signatures, and judges credentials, by the clock of this runtime.
#[derive(Drop)]
pub struct ProxyClock<'a, T> {
    pub time: &'a T,
}

impl<T: time::Clock> SigningClock for ProxyClock<'_, T> {
    ghost tells = { λ clock moment. ⊤ };

    fn moment(&self) -> Timestamp {
        SystemClock::new(self.time).now()
    }
}

impl<T: Counter> Counter for ProxyClock<'_, T> {
    fn count(&self) {
        self.time.count();
    }
}

impl<T: time::Clock> GateClock for ProxyClock<'_, T> {
    ghost shows = { λ clock moment. ⊤ };

    fn now(&self) -> Timestamp {
        self.moment()
    }
}
