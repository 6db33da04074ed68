//! What happens to calls of the desk that a handle holds. At a moment that is none, status 11, and on a
//! closed handle, 40, nothing changes.
ghost use Rattle.std.specs.Prelude.{◌≡◌, Some};
ghost use Rattle.sequential_signer.specs.declared.event.Answer.TheVariants as answers;
ghost use Rattle.sequential_signer.specs.declared.event.Event.TheVariants.{Signed, Cancel};
ghost use Rattle.sequential_signer.specs.declared.event.Verdict.TheVariants as verdicts;
ghost use Rattle.domreth_desk.specs.Events.{no_head, poll_given, provided_given, found_given};
ghost use Rattle.domreth_handle.specs.Calls.{IsReplied, Tells, TellsBegin, ShowsCached};

use crate::time::span_of;
use crate::{CallId, DeskHandle, DeskReply, GivenMoment, GivenTicket};
use std::alloc::Global;

/// Begins a call, whose operation may take so long where it says so.
pub fn begin(
    alloc: Global,
    handle: &mut DeskHandle,
    call: CallId,
    lasts: bool,
    seconds: u64,
    nanos: u32,
    reply: &mut DeskReply,
) -> u8
    ensures { TellsBegin call lasts seconds nanos handle.old.desk result
        (record { before = handle.old.desk; after = handle.new.desk; old = reply.old; new = reply.new }) }
{
    let Some(mut desk) = handle.take(alloc) else {
        return 40;
    };
    let Some(expires_in) = span_of(lasts, seconds, nanos) else {
        handle.put(desk);
        return 11;
    };
    *reply = domreth_desk::begin(&mut desk, call, expires_in);
    handle.put(desk);
    0
}

/// Asks for the next step of a call.
pub fn poll(
    alloc: Global,
    handle: &mut DeskHandle,
    call: CallId,
    now: &GivenMoment,
    reply: &mut DeskReply,
) -> u8
    ensures { Tells (poll_given call now.now) handle.old.desk result
        (record { before = handle.old.desk; after = handle.new.desk; old = reply.old; new = reply.new }) }
{
    let Some(mut desk) = handle.take(alloc) else {
        return 40;
    };
    let answer = domreth_desk::poll(&mut desk, call, *now);
    handle.put(desk);
    hand_reply(answer, reply)
}

/// The provider that was asked last has this credential.
pub fn found(
    alloc: Global,
    handle: &mut DeskHandle,
    call: CallId,
    now: &GivenMoment,
    ticket: &GivenTicket,
    reply: &mut DeskReply,
) -> u8
    ensures { Tells (found_given call now.now ticket.now) handle.old.desk result
        (record { before = handle.old.desk; after = handle.new.desk; old = reply.old; new = reply.new }) }
{
    let Some(mut desk) = handle.take(alloc) else {
        return 40;
    };
    let answer = domreth_desk::found(&mut desk, call, *now, *ticket);
    handle.put(desk);
    hand_reply(answer, reply)
}

/// The provider that was asked last has no credential.
pub fn missing(
    alloc: Global,
    handle: &mut DeskHandle,
    call: CallId,
    now: &GivenMoment,
    reply: &mut DeskReply,
) -> u8
    ensures { Tells (provided_given call now.now answers.Missing) handle.old.desk result
        (record { before = handle.old.desk; after = handle.new.desk; old = reply.old; new = reply.new }) }
{
    let Some(mut desk) = handle.take(alloc) else {
        return 40;
    };
    let answer = domreth_desk::missing(&mut desk, call, *now);
    handle.put(desk);
    hand_reply(answer, reply)
}

/// The provider that was asked last failed, by the caller's number for it.
pub fn failed(
    alloc: Global,
    handle: &mut DeskHandle,
    call: CallId,
    now: &GivenMoment,
    failure: u64,
    reply: &mut DeskReply,
) -> u8
    ensures { Tells (provided_given call now.now (answers.Failed failure)) handle.old.desk result
        (record { before = handle.old.desk; after = handle.new.desk; old = reply.old; new = reply.new }) }
{
    let Some(mut desk) = handle.take(alloc) else {
        return 40;
    };
    let answer = domreth_desk::failed(&mut desk, call, *now, failure);
    handle.put(desk);
    hand_reply(answer, reply)
}

/// The service signed.
pub fn accept(alloc: Global, handle: &mut DeskHandle, call: CallId, reply: &mut DeskReply) -> u8
    ensures { Tells (Some (Signed call (verdicts.Accepted no_head))) handle.old.desk result
        (record { before = handle.old.desk; after = handle.new.desk; old = reply.old; new = reply.new }) }
{
    let Some(mut desk) = handle.take(alloc) else {
        return 40;
    };
    *reply = domreth_desk::accept(&mut desk, call);
    handle.put(desk);
    0
}

/// The service failed, by the caller's number for it.
pub fn reject(
    alloc: Global,
    handle: &mut DeskHandle,
    call: CallId,
    failure: u64,
    reply: &mut DeskReply,
) -> u8
    ensures { Tells (Some (Signed call (verdicts.Failed failure))) handle.old.desk result
        (record { before = handle.old.desk; after = handle.new.desk; old = reply.old; new = reply.new }) }
{
    let Some(mut desk) = handle.take(alloc) else {
        return 40;
    };
    *reply = domreth_desk::reject(&mut desk, call, failure);
    handle.put(desk);
    0
}

/// The call is given up.
pub fn cancel(alloc: Global, handle: &mut DeskHandle, call: CallId, reply: &mut DeskReply) -> u8
    ensures { Tells (Some (Cancel call)) handle.old.desk result
        (record { before = handle.old.desk; after = handle.new.desk; old = reply.old; new = reply.new }) }
{
    let Some(mut desk) = handle.take(alloc) else {
        return 40;
    };
    *reply = domreth_desk::cancel(&mut desk, call);
    handle.put(desk);
    0
}

/// Hands out the credential that the cache holds.
pub fn cached(alloc: Global, handle: &mut DeskHandle, cache: u32, ticket: &mut GivenTicket) -> u8
    ensures { ShowsCached cache handle.old.desk result
        (record { before = handle.old.desk; after = handle.new.desk; old = ticket.old; new = ticket.new }) }
{
    let Some(desk) = handle.take(alloc) else {
        return 40;
    };
    let is_there = cache < desk.desk.caches();
    let held = domreth_desk::cached(&desk, cache);
    handle.put(desk);
    match held {
        Some(found) => {
            *ticket = found;
            0
        }
        None => if is_there { 46 } else { 43 },
    }
}

/// Hands a reply out, where there is one.
fn hand_reply(answer: Option<DeskReply>, reply: &mut DeskReply) -> u8
    ensures { IsReplied answer reply.old result reply.new }
{
    match answer {
        Some(out) => {
            *reply = out;
            0
        }
        None => 11,
    }
}
