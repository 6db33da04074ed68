//! Eight calls on an empty cache, each step of which is tried once more where an allocation fails.
use crate::calls::{CallAnswer, CallPoll, Calls};
use crate::key::at;
use crate::one_call::request;
use crate::signer_calls::signer_of;
use crate::source::Source;
use crate::stamp::Stamp;
use http::request::Parts;
use sign_base::Timestamp;
use std::alloc::Global;

/// The keys of the first and of the second load; and a call that is refused.
const FIRST: &[u8] = b"5551001";

const SECOND: &[u8] = b"5551002";

const REFUSED: &[u8] = b"";

/// What eight calls come to: the key of the first that is served, and the key of the others.
#[derive(Clone, Copy)]
struct Row {
    source: Source,
    given_up: Option<usize>,
    first: &'static [u8],
    others: &'static [u8],
}

/// How far a call is after a poll.
#[derive(Clone, Copy)]
enum How {
    Pending,
    Done,
    Refused,
    OutOfMemory,
}

/// What a poll answers, and the call that has its turn by it.
type Polled = (How, Option<usize>);

type StampedCalls = Calls<Source, Stamp>;

fn poll(calls: &mut StampedCalls, call: usize, req: &mut Parts, now: Timestamp) -> Polled {
    let Some(polled) = calls.poll(call, req, now) else {
        return (How::OutOfMemory, None);
    };
    let CallPoll { answer, wake } = polled;
    let how = how_of(&answer);
    drop(answer);
    (how, wake)
}

fn how_of(answer: &CallAnswer) -> How {
    match answer {
        CallAnswer::Pending => How::Pending,
        CallAnswer::Done => How::Done,
        CallAnswer::Refused(_) => How::Refused,
        CallAnswer::OutOfMemory => How::OutOfMemory,
    }
}

/// Begins eight calls and polls each once, which finds that it has to wait and wakes nobody.
fn all_wait(alloc: Global, calls: &mut StampedCalls, req: &mut Parts, now: Timestamp) -> bool {
    for _ in 0..8 {
        if !waits(alloc, calls, req, now) {
            return false;
        }
    }
    true
}

fn waits(alloc: Global, calls: &mut StampedCalls, req: &mut Parts, now: Timestamp) -> bool {
    let Some(call) = begun(alloc, calls, req) else {
        return false;
    };
    match poll(calls, call, req, now) {
        (How::OutOfMemory, None) => is_pending(poll(calls, call, req, now)),
        polled => is_pending(polled),
    }
}

fn is_pending(polled: Polled) -> bool {
    matches!(polled, (How::Pending, None))
}

/// The number of a call that is begun at the first or at the second try.
fn begun(alloc: Global, calls: &mut StampedCalls, req: &Parts) -> Option<usize> {
    match calls.begin(alloc, 0, req, None).ok() {
        None => calls.begin(alloc, 0, req, None).ok(),
        call => call,
    }
}

/// Gives a call up, and tells whose turn it is.
fn first_turn(calls: &mut StampedCalls, given_up: Option<usize>) -> Option<usize> {
    match given_up {
        None => Some(0),
        Some(0) => calls.cancel(0),
        Some(call) => match calls.cancel(call) {
            None => Some(0),
            Some(_) => None,
        },
    }
}

/// Gives one call up and serves the others, each as it is woken. Tells whether they end as the row says.
fn are_served(calls: &mut StampedCalls, req: &mut Parts, now: Timestamp, row: Row) -> bool {
    let mut turn = first_turn(calls, row.given_up);
    let mut key = row.first;
    for call in 0..8 {
        if row.given_up == Some(call) {
            continue;
        }
        if turn != Some(call) {
            return false;
        }
        let (how, wake) = last_poll(calls, call, req, now);
        if !is_end(how, req, key) {
            return false;
        }
        turn = wake;
        key = row.others;
    }
    turn.is_none()
}

/// Polls a call until it is over, four times at most. One of the polls may name the call that has its
/// turn, and it need not be the last.
fn last_poll(calls: &mut StampedCalls, call: usize, req: &mut Parts, now: Timestamp) -> Polled {
    let mut woken = None;
    for _ in 0..4 {
        let (how, wake) = poll(calls, call, req, now);
        woken = woken.or(wake);
        match how {
            How::Done | How::Refused => return (how, woken),
            How::Pending | How::OutOfMemory => {}
        }
    }
    (How::Pending, woken)
}

/// Whether a call is signed with this key, or refused.
fn is_end(how: How, req: &Parts, key: &[u8]) -> bool {
    match how {
        How::Done => match req.headers.get("load") {
            Some(value) => value.as_bytes() == key,
            None => false,
        },
        How::Refused => key.is_empty(),
        How::Pending | How::OutOfMemory => false,
    }
}

/// Whether eight calls of a new signer end as the row says. None where an allocation failed before the
/// first call. One request stands for all: a call that is done leaves its head there.
fn end_so(alloc: Global, row: Row) -> Option<bool> {
    let mut req = request(alloc, "https://e.x/a")?;
    let now = at(alloc, 5)?;
    let signer = signer_of(alloc, &[row.source], Stamp::Header)?;
    let mut calls = Calls::new(alloc, signer);
    let so = all_wait(alloc, &mut calls, &mut req, now)
        && are_served(&mut calls, &mut req, now, row);
    drop(calls);
    Some(so)
}

fn end_so_at_last(alloc: Global, row: Row) -> bool {
    match end_so(alloc, row) {
        None => matches!(end_so(alloc, row), Some(true)),
        Some(so) => so,
    }
}

/// Sources, the call that is given up, and the keys of the first and of the others.
static ROWS: [(Source, Option<usize>, &[u8], &[u8]); 5] = [
    (Source::FindsLater, None, FIRST, FIRST),
    (Source::FindsLater, Some(2), FIRST, FIRST),
    (Source::FindsLater, Some(0), SECOND, SECOND),
    (Source::FailsOnce, None, REFUSED, SECOND),
    (Source::FailsLater, Some(3), REFUSED, REFUSED),
];

/// Eight calls on an empty cache sign with one load. A call that is given up wakes the next where it was
/// its turn; a load that fails refuses its own call alone.
#[test]
fn eight_calls_sign_with_one_load(rt: HostRuntime) {
    for (source, given_up, first, others) in &ROWS {
        let row = Row {
            source: *source,
            given_up: *given_up,
            first: *first,
            others: *others,
        };
        assert!(rt; end_so_at_last(rt.alloc(), row), "{given_up:?}");
    }
}
