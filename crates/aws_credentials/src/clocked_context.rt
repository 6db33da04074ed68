//! A context beside a clock: what providers and services of AWS work in.
ghost use Rattle.std.specs.Prelude.{◌≡◌};

use crate::SigningClock;
use credentials::Context;
use sign_base::Timestamp;

/// The files, requests, variables and commands in which providers work, and the clock by which a service
/// dates what it signs.
#[derive(Drop)]
pub struct ClockedContext<F, H, E, C, X> {
    pub objects: Context<F, H, E, C>,
    pub clock: X,
}

/// It tells what its clock does.
impl<F: Drop, H: Drop, E: Drop, C: Drop, X: SigningClock> SigningClock
    for ClockedContext<F, H, E, C, X> {
    ghost tells = { λ ctx moment. X.tells ctx.clock moment };

    fn moment(&self) -> Timestamp {
        self.clock.moment()
    }
}
