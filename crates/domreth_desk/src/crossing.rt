//! What crosses, in the layout of C.
ghost use Rattle.std.specs.Prelude.{◌≡◌, ◌+ℤ◌};
ghost use Rattle.sign_base.specs.Moment.{moment_of_second};
ghost use Rattle.domreth_desk.specs.Crossing.{moment_given, moment_out, ticket_given, ticket_out};

use crate::Ticket;
use sign_base::Timestamp;

const NANOS_OF_SECOND: i128 = 1_000_000_000;

/// A moment: so many seconds after the start of 1970, and so many nanoseconds.
#[repr(C)]
#[derive(Clone, Copy, Debug)]
pub struct GivenMoment {
    pub second: i64,
    pub nanos: i32,
}

/// A credential, by the number that its keeper knows it by.
#[repr(C)]
#[derive(Clone, Copy, Debug)]
pub struct GivenTicket {
    pub number: u64,
    pub fresh: GivenMoment,
    pub lasts: GivenMoment,
}

/// A reply. What its kind does not speak of is 0.
#[repr(C)]
#[derive(Clone, Copy, Debug)]
pub struct DeskReply {
    /// 0 begun, 1 pending, 2 not now, 3 out of memory, 4 ask, 5 sign, 6 refused, 7 done, 8 cancelled.
    pub kind: u8,
    /// Why the call is refused: 1 no provider has a credential, 2 the credential does not last to the
    /// deadline, 3 the deadline is out of range, 4 the provider failed, 5 the service failed.
    pub cause: u8,
    /// Whether a call has its turn by this, and is to be polled.
    pub wakes: bool,
    /// The provider to ask.
    pub provider: u32,
    /// The call that is to be polled.
    pub wake_handle: u32,
    pub wake_number: u64,
    /// The credential to sign with, or the number of the failure.
    pub number: u64,
    /// The deadline that a credential does not last to.
    pub deadline: GivenMoment,
}

impl GivenMoment {
    /// The moment, where `Timestamp` has it.
    pub(crate) fn moment(self) -> Option<Timestamp>
        ensures { result ≡ moment_given self }
    {
        Timestamp::from_nanos(self.nanos())
    }

    /// The nanoseconds since the start of 1970.
    fn nanos(self) -> i128
        ensures { result ≡ moment_of_second self.second +ℤ self.nanos }
    {
        i128::from(self.second) * NANOS_OF_SECOND + i128::from(self.nanos)
    }

    /// The moment in whole seconds, cut towards 1970, and the rest.
    pub(crate) fn of(moment: Timestamp) -> GivenMoment
        ensures { result ≡ moment_out moment }
    {
        GivenMoment {
            second: moment.as_second(),
            nanos: moment.subsec_nanosecond(),
        }
    }
}

impl GivenTicket {
    /// The credential, where its moments are.
    pub(crate) fn ticket(self) -> Option<Ticket>
        ensures { result ≡ ticket_given self }
    {
        let fresh = self.fresh.moment()?;
        let lasts = self.lasts.moment()?;
        Some(Ticket {
            number: self.number,
            fresh,
            lasts,
        })
    }

    pub(crate) fn of(ticket: Ticket) -> GivenTicket
        ensures { result ≡ ticket_out ticket }
    {
        GivenTicket {
            number: ticket.number,
            fresh: GivenMoment::of(ticket.fresh),
            lasts: GivenMoment::of(ticket.lasts),
        }
    }
}
