//! A reply as plain numbers.
ghost use Rattle.std.specs.Prelude.{◌≡◌};
ghost use Rattle.domreth_desk.specs.ReplyOut.{plain_out, refused_out, waking_out, reply_out};

use crate::Ticket;
use crate::crossing::{DeskReply, GivenMoment};
use sequential_signer::{Reply, Why};
use sign_base::CallId;

/// The reply, as it crosses.
pub(crate) fn reply_out(reply: &Reply<Ticket>) -> DeskReply
    ensures { result ≡ reply_out reply.now }
{
    match reply {
        Reply::Begun => plain_out(0),
        Reply::Pending => plain_out(1),
        Reply::NotNow => plain_out(2),
        Reply::OutOfMemory => plain_out(3),
        Reply::Ask { provider } => DeskReply {
            provider: *provider,
            ..plain_out(4)
        },
        Reply::Sign { credential, wake } => waking_out(
            *wake,
            DeskReply {
                number: credential.number,
                ..plain_out(5)
            },
        ),
        Reply::Refused { why, wake } => waking_out(*wake, refused_out(why)),
        Reply::Done { .. } => plain_out(7),
        Reply::Cancelled { wake } => waking_out(*wake, plain_out(8)),
    }
}

/// A reply of this kind that says no more.
fn plain_out(kind: u8) -> DeskReply
    ensures { result ≡ plain_out kind }
{
    DeskReply {
        kind,
        cause: 0,
        wakes: false,
        provider: 0,
        wake_handle: 0,
        wake_number: 0,
        number: 0,
        deadline: GivenMoment {
            second: 0,
            nanos: 0,
        },
    }
}

/// A refusal for this cause.
fn refused_out(why: &Why) -> DeskReply
    ensures { result ≡ refused_out why.now }
{
    let refused = plain_out(6);
    match why {
        Why::Missing => DeskReply {
            cause: 1,
            ..refused
        },
        Why::Short(deadline) => DeskReply {
            cause: 2,
            deadline: GivenMoment::of(*deadline),
            ..refused
        },
        Why::Range => DeskReply {
            cause: 3,
            ..refused
        },
        Why::Loader(number) => DeskReply {
            cause: 4,
            number: *number,
            ..refused
        },
        Why::Service(number) => DeskReply {
            cause: 5,
            number: *number,
            ..refused
        },
    }
}

/// The reply, and the call that it wakes.
fn waking_out(wake: Option<CallId>, out: DeskReply) -> DeskReply
    ensures { result ≡ waking_out wake out }
{
    match wake {
        Some(call) => DeskReply {
            wakes: true,
            wake_handle: call.handle,
            wake_number: call.number,
            ..out
        },
        None => out,
    }
}
