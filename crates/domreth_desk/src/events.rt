//! What happens to calls, each as one event and its reply. An event with a moment that `Timestamp` does not
//! have is none: nothing changes, and there is no reply.
ghost use Rattle.std.specs.Prelude.{◌≡◌, option_map, option_and_then, slice_get};
ghost use Rattle.domreth_desk.specs.Crossing.{ticket_out};
ghost use Rattle.domreth_desk.specs.Events.{no_head, poll_given, provided_given, found_given};
ghost use Rattle.domreth_desk.specs.Events.{IsTold, AnswersGiven};

use crate::crossing::{DeskReply, GivenMoment, GivenTicket};
use crate::reply_out::reply_out;
use crate::{Ticket, TicketDesk};
use sequential_signer::{Answer, Event, Verdict};
use sign_base::{CallId, Fields, Head, Octets, Version};
use std::alloc::Global;
use std::time::Duration;

/// Begins a call, whose operation may take so long where it says so. Replies: begun, not now, out of memory.
pub fn begin(desk: &mut TicketDesk, call: CallId, expires_in: Option<Duration>) -> DeskReply
    ensures { IsTold (Event.Begin call no_head expires_in) desk.old.desk result desk.new.desk }
{
    let head = no_head(desk.desk.alloc());
    tell(
        desk,
        Event::Begin {
            call,
            head,
            expires_in,
        },
    )
}

/// Asks for the next step of a call. Replies: pending, ask, sign, refused, not now, out of memory.
pub fn poll(desk: &mut TicketDesk, call: CallId, now: GivenMoment) -> Option<DeskReply>
    ensures { AnswersGiven (poll_given call now) desk.old.desk result desk.new.desk }
{
    match now.moment() {
        Some(now) => Some(tell(desk, Event::Poll { call, now })),
        None => None,
    }
}

/// The provider that was asked last has this credential.
pub fn found(
    desk: &mut TicketDesk,
    call: CallId,
    now: GivenMoment,
    ticket: GivenTicket,
) -> Option<DeskReply>
    ensures { AnswersGiven (found_given call now ticket) desk.old.desk result desk.new.desk }
{
    match ticket.ticket() {
        Some(ticket) => provided(desk, call, now, Answer::Found(ticket)),
        None => None,
    }
}

/// The provider that was asked last has no credential.
pub fn missing(desk: &mut TicketDesk, call: CallId, now: GivenMoment) -> Option<DeskReply>
    ensures { AnswersGiven (provided_given call now Answer.Missing) desk.old.desk result desk.new.desk }
{
    provided(desk, call, now, Answer::Missing)
}

/// The provider that was asked last failed, by the caller's number for it.
pub fn failed(
    desk: &mut TicketDesk,
    call: CallId,
    now: GivenMoment,
    failure: u64,
) -> Option<DeskReply>
    ensures { AnswersGiven (provided_given call now (Answer.Failed failure))
        desk.old.desk result desk.new.desk }
{
    provided(desk, call, now, Answer::Failed(failure))
}

fn provided(
    desk: &mut TicketDesk,
    call: CallId,
    now: GivenMoment,
    answer: Answer<Ticket>,
) -> Option<DeskReply>
    ensures { AnswersGiven (provided_given call now answer) desk.old.desk result desk.new.desk }
{
    match now.moment() {
        Some(now) => Some(tell(desk, Event::Provided { call, now, answer })),
        None => None,
    }
}

/// The service signed. Replies: done, not now.
pub fn accept(desk: &mut TicketDesk, call: CallId) -> DeskReply
    ensures { IsTold (Event.Signed call (Verdict.Accepted no_head)) desk.old.desk result desk.new.desk }
{
    let head = no_head(desk.desk.alloc());
    tell(
        desk,
        Event::Signed {
            call,
            answer: Verdict::Accepted(head),
        },
    )
}

/// The service failed, by the caller's number for it. Replies: refused, not now.
pub fn reject(desk: &mut TicketDesk, call: CallId, failure: u64) -> DeskReply
    ensures { IsTold (Event.Signed call (Verdict.Failed failure)) desk.old.desk result desk.new.desk }
{
    tell(
        desk,
        Event::Signed {
            call,
            answer: Verdict::Failed(failure),
        },
    )
}

/// The call is given up. Replies: cancelled, not now.
pub fn cancel(desk: &mut TicketDesk, call: CallId) -> DeskReply
    ensures { IsTold (Event.Cancel call) desk.old.desk result desk.new.desk }
{
    tell(desk, Event::Cancel { call })
}

/// The credential that the cache holds, if there is such a cache and it holds one.
pub fn cached(desk: &TicketDesk, cache: u32) -> Option<GivenTicket>
    ensures { result
        ≡ option_map ticket_out (option_and_then (λ held. held) (slice_get desk.now.desk.caches cache)) }
{
    match desk.desk.cached(cache) {
        Some(ticket) => Some(GivenTicket::of(*ticket)),
        None => None,
    }
}

/// Steps the desk.
fn tell(desk: &mut TicketDesk, event: Event<Ticket>) -> DeskReply
    ensures { IsTold event desk.old.desk result desk.new.desk }
{
    let reply = desk.desk.step_owned(event);
    let out = reply_out(&reply);
    drop(reply);
    out
}

/// The head of a desk that keeps none. It takes no memory.
fn no_head(alloc: Global) -> Head
    ensures { result ≡ no_head }
{
    Head {
        method: Octets::from_vec(Vec::new(alloc)),
        uri: Octets::from_vec(Vec::new(alloc)),
        version: Version::V11,
        headers: Fields::new(alloc),
    }
}
