//! What a link names.
ghost use Rattle.std.specs.Prelude.{◌≡◌, ◌*◌};
ghost use Rattle.sign_base.specs.Moment.{add_moment};
ghost use Rattle.sign_time.specs.Calendar.{second_nanos};

use sign_base::{Octets, Timestamp};
use sigv4_core::SigScope;
use std::time::Duration;

/// What a link says of itself. Whether it was signed so is for `verify` to say.
#[derive(Debug, Drop)]
pub struct LinkClaims {
    /// The access key of who signed it.
    pub access: Octets,
    /// The region and the service that it is for.
    pub scope: SigScope,
    /// The whole second from which on it is good.
    pub date: Timestamp,
    /// How long it is good from then on, in seconds.
    pub expires: u32,
}

impl LinkClaims {
    /// The moment from which on it is not good any more, None where that is out of a moment's range.
    pub fn end(&self) -> Option<Timestamp>
        ensures { result ≡ add_moment self.now.date (self.now.expires * second_nanos) }
    {
        self.date
            .checked_add(Duration::from_secs(u64::from(self.expires)))
    }
}
