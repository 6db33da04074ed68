//! The events of `load`, each by its call: their heads, moments and credentials.
ghost use Rattle.std.specs.Prelude.{◌≡◌, ◌≤◌, ◌*◌, IfOk, pos};
ghost use Rattle.line_words.specs.Moments.{nanos_of_second};
ghost use Rattle.signctl_load.specs.LoadRound.{moment_in_round, load_head, accepted_head, load_credential};
ghost use Rattle.signctl_load.specs.LoadRound.{begin_event, poll_event, found_event, accepted_event};

use sequential_signer::{Answer, Event, Verdict};
use sign_base::{CallId, Field, Fields, Head, NoMemory, Octets, Timestamp, Version};
use signctl_format::ScriptCredential;
use std::alloc::Global;

pub(crate) fn begin_event(
    alloc: Global,
    call: CallId,
) -> Result<Event<ScriptCredential>, NoMemory<()>>
    ensures { IfOk result (λ event. event ≡ begin_event call) }
{
    Ok(Event::Begin {
        call,
        head: load_head(alloc)?,
        expires_in: None,
    })
}

pub(crate) fn accepted_event(
    alloc: Global,
    call: CallId,
) -> Result<Event<ScriptCredential>, NoMemory<()>>
    ensures { IfOk result (λ event. event ≡ accepted_event call) }
{
    Ok(Event::Signed {
        call,
        answer: Verdict::Accepted(accepted_head(alloc)?),
    })
}

pub(crate) fn poll_event(round: u64, seconds: u64, call: CallId) -> Event<ScriptCredential>
    requires early { round ≤ 100000 }
    requires inside { seconds ≤ 1000 }
    ensures { result ≡ poll_event round seconds call }
{
    Event::Poll {
        call,
        now: moment(round, seconds),
    }
}

pub(crate) fn found_event(round: u64, call: CallId) -> Event<ScriptCredential>
    requires { round ≤ 100000 }
    ensures { result ≡ found_event round call }
{
    Event::Provided {
        call,
        now: moment(round, 1),
        answer: Answer::Found(credential(round)),
    }
}

/// The credential that is found in a round.
fn credential(round: u64) -> ScriptCredential
    requires { round ≤ 100000 }
    ensures { result ≡ load_credential round }
{
    ScriptCredential {
        generation: round,
        fresh: moment(round, 150),
        expires: moment(round, 1000),
        required: at_second(0),
    }
}

/// The moment so many seconds after a round begins.
fn moment(round: u64, seconds: u64) -> Timestamp
    requires early { round ≤ 100000 }
    requires inside { seconds ≤ 1000 }
    ensures { result ≡ moment_in_round round seconds }
{
    at_second(100 * round + seconds)
}

fn at_second(second: u64) -> Timestamp
    requires { second ≤ 100000000 }
    ensures { result ≡ pos (second * nanos_of_second) }
{
    match Timestamp::from_nanos((second * 1_000_000_000) as i128) {
        Some(moment) => moment,
        None => unreachable!(),
    }
}

/// The head of each call.
fn load_head(alloc: Global) -> Result<Head, NoMemory<()>>
    ensures { IfOk result (λ head. head ≡ load_head) }
{
    Ok(Head {
        method: Octets::from_slice(alloc, b"GET")?,
        uri: Octets::from_slice(alloc, b"https://e.x/c")?,
        version: Version::V11,
        headers: Fields::new(alloc),
    })
}

/// The same with the one header that the service adds.
fn accepted_head(alloc: Global) -> Result<Head, NoMemory<()>>
    ensures { IfOk result (λ head. head ≡ accepted_head) }
{
    let mut head = load_head(alloc)?;
    let field = Field {
        name: Octets::from_slice(alloc, b"a")?,
        value: Octets::from_slice(alloc, b"b")?,
    };
    match head.headers.push(field) {
        Ok(()) => Ok(head),
        Err(_) => Err(NoMemory { back: () }),
    }
}
