//! A length of time as it is given: seconds, and nanoseconds that are less than a second.
ghost use Rattle.domreth_handle.specs.Calls.{IsTime, IsSpan};

use std::time::Duration;

const NANOS_OF_SECOND: u32 = 1_000_000_000;

/// The time, where its nanoseconds are less than a second.
pub(crate) fn time_of(seconds: u64, nanos: u32) -> Option<Duration>
    ensures { IsTime seconds nanos result }
{
    if nanos >= NANOS_OF_SECOND {
        return None;
    }
    Some(Duration::new(seconds, nanos))
}

/// How long an operation takes, where it says so.
pub(crate) fn span_of(lasts: bool, seconds: u64, nanos: u32) -> Option<Option<Duration>>
    ensures { IsSpan lasts seconds nanos result }
{
    if !lasts {
        return Some(None);
    }
    match time_of(seconds, nanos) {
        Some(time) => Some(Some(time)),
        None => None,
    }
}
