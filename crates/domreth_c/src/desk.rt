//! The desk by handle: each call is that of [`domreth_handle`], whose clause it states again.
ghost use Rattle.std.specs.Prelude.{◌≡◌, Some, None};
ghost use Rattle.sequential_signer.specs.declared.event.Answer.TheVariants as answers;
ghost use Rattle.sequential_signer.specs.declared.event.Event.TheVariants.{Signed, Cancel};
ghost use Rattle.sequential_signer.specs.declared.event.Verdict.TheVariants as verdicts;
ghost use Rattle.domreth_desk.specs.Events.{no_head, poll_given, provided_given, found_given};
ghost use Rattle.domreth_handle.specs.Calls.{Opens, AddsCache, AddsRule, AddsHandle};
ghost use Rattle.domreth_handle.specs.Calls.{Tells, TellsBegin, ShowsCached};
ghost use Rattle.domreth_c.specs.Loading.{loader_of, call_of};

use domreth_handle::{CallId, DeskHandle, DeskReply, GivenMoment, GivenTicket, Loader};
use std::alloc::Global;

/// Opens a closed handle: 0, 45 where it is open, or 6 where an allocation failed.
#[unsafe(no_mangle)]
pub extern "C" fn domreth_desk_open(alloc: Global, desk: &mut DeskHandle) -> u8
    ensures { Opens desk.old.desk result desk.new.desk }
{
    domreth_handle::open(alloc, desk)
}

/// Adds a cache: one provider where `providers` is 0, and else a chain of so many. It is handed its number.
#[unsafe(no_mangle)]
pub extern "C" fn domreth_desk_add_cache(
    alloc: Global,
    desk: &mut DeskHandle,
    providers: u32,
    number: &mut u32,
) -> u8
    ensures { AddsCache (loader_of providers) desk.old.desk result
        (record { before = desk.old.desk; after = desk.new.desk; old = number.old; new = number.new }) }
{
    domreth_handle::add_cache(alloc, desk, loader_of(providers), number)
}

/// Adds a rule by which a credential lasts so much longer than to the end of an operation.
#[unsafe(no_mangle)]
pub extern "C" fn domreth_desk_add_rule(
    alloc: Global,
    desk: &mut DeskHandle,
    margin_seconds: u64,
    margin_nanos: u32,
    number: &mut u32,
) -> u8
    ensures { AddsRule margin_seconds margin_nanos desk.old.desk result
        (record { before = desk.old.desk; after = desk.new.desk; old = number.old; new = number.new }) }
{
    domreth_handle::add_rule(alloc, desk, margin_seconds, margin_nanos, number)
}

/// Adds a handle on this cache with this rule.
#[unsafe(no_mangle)]
pub extern "C" fn domreth_desk_add_handle(
    alloc: Global,
    desk: &mut DeskHandle,
    cache: u32,
    rule: u32,
    number: &mut u32,
) -> u8
    ensures { AddsHandle cache rule desk.old.desk result
        (record { before = desk.old.desk; after = desk.new.desk; old = number.old; new = number.new }) }
{
    domreth_handle::add_handle(alloc, desk, cache, rule, number)
}

/// Begins a call, whose operation may take so long where it says so.
#[unsafe(no_mangle)]
pub extern "C" fn domreth_desk_begin(
    alloc: Global,
    desk: &mut DeskHandle,
    handle: u32,
    number: u64,
    lasts: bool,
    seconds: u64,
    nanos: u32,
    reply: &mut DeskReply,
) -> u8
    ensures { TellsBegin (call_of handle number) lasts seconds nanos desk.old.desk result
        (record { before = desk.old.desk; after = desk.new.desk; old = reply.old; new = reply.new }) }
{
    domreth_handle::begin(
        alloc,
        desk,
        CallId { handle, number },
        lasts,
        seconds,
        nanos,
        reply,
    )
}

/// Asks for the next step of a call.
#[unsafe(no_mangle)]
pub extern "C" fn domreth_desk_poll(
    alloc: Global,
    desk: &mut DeskHandle,
    handle: u32,
    number: u64,
    now: &GivenMoment,
    reply: &mut DeskReply,
) -> u8
    ensures { Tells (poll_given (call_of handle number) now.now) desk.old.desk result
        (record { before = desk.old.desk; after = desk.new.desk; old = reply.old; new = reply.new }) }
{
    domreth_handle::poll(alloc, desk, CallId { handle, number }, now, reply)
}

/// The provider that was asked last has this credential.
#[unsafe(no_mangle)]
pub extern "C" fn domreth_desk_found(
    alloc: Global,
    desk: &mut DeskHandle,
    handle: u32,
    number: u64,
    now: &GivenMoment,
    ticket: &GivenTicket,
    reply: &mut DeskReply,
) -> u8
    ensures { Tells (found_given (call_of handle number) now.now ticket.now) desk.old.desk result
        (record { before = desk.old.desk; after = desk.new.desk; old = reply.old; new = reply.new }) }
{
    domreth_handle::found(alloc, desk, CallId { handle, number }, now, ticket, reply)
}

/// The provider that was asked last has no credential.
#[unsafe(no_mangle)]
pub extern "C" fn domreth_desk_missing(
    alloc: Global,
    desk: &mut DeskHandle,
    handle: u32,
    number: u64,
    now: &GivenMoment,
    reply: &mut DeskReply,
) -> u8
    ensures { Tells (provided_given (call_of handle number) now.now answers.Missing) desk.old.desk result
        (record { before = desk.old.desk; after = desk.new.desk; old = reply.old; new = reply.new }) }
{
    domreth_handle::missing(alloc, desk, CallId { handle, number }, now, reply)
}

/// The provider that was asked last failed, by the caller's number for it.
#[unsafe(no_mangle)]
pub extern "C" fn domreth_desk_failed(
    alloc: Global,
    desk: &mut DeskHandle,
    handle: u32,
    number: u64,
    now: &GivenMoment,
    failure: u64,
    reply: &mut DeskReply,
) -> u8
    ensures { Tells (provided_given (call_of handle number) now.now (answers.Failed failure))
        desk.old.desk result
        (record { before = desk.old.desk; after = desk.new.desk; old = reply.old; new = reply.new }) }
{
    domreth_handle::failed(alloc, desk, CallId { handle, number }, now, failure, reply)
}

/// The service signed.
#[unsafe(no_mangle)]
pub extern "C" fn domreth_desk_accept(
    alloc: Global,
    desk: &mut DeskHandle,
    handle: u32,
    number: u64,
    reply: &mut DeskReply,
) -> u8
    ensures { Tells (Some (Signed (call_of handle number) (verdicts.Accepted no_head))) desk.old.desk result
        (record { before = desk.old.desk; after = desk.new.desk; old = reply.old; new = reply.new }) }
{
    domreth_handle::accept(alloc, desk, CallId { handle, number }, reply)
}

/// The service failed, by the caller's number for it.
#[unsafe(no_mangle)]
pub extern "C" fn domreth_desk_reject(
    alloc: Global,
    desk: &mut DeskHandle,
    handle: u32,
    number: u64,
    failure: u64,
    reply: &mut DeskReply,
) -> u8
    ensures { Tells (Some (Signed (call_of handle number) (verdicts.Failed failure))) desk.old.desk result
        (record { before = desk.old.desk; after = desk.new.desk; old = reply.old; new = reply.new }) }
{
    domreth_handle::reject(alloc, desk, CallId { handle, number }, failure, reply)
}

/// The call is given up.
#[unsafe(no_mangle)]
pub extern "C" fn domreth_desk_cancel(
    alloc: Global,
    desk: &mut DeskHandle,
    handle: u32,
    number: u64,
    reply: &mut DeskReply,
) -> u8
    ensures { Tells (Some (Cancel (call_of handle number))) desk.old.desk result
        (record { before = desk.old.desk; after = desk.new.desk; old = reply.old; new = reply.new }) }
{
    domreth_handle::cancel(alloc, desk, CallId { handle, number }, reply)
}

/// Hands out the credential that a cache holds: 0, 43 where there is no such cache, or 46 where it is empty.
#[unsafe(no_mangle)]
pub extern "C" fn domreth_desk_cached(
    alloc: Global,
    desk: &mut DeskHandle,
    cache: u32,
    ticket: &mut GivenTicket,
) -> u8
    ensures { ShowsCached cache desk.old.desk result
        (record { before = desk.old.desk; after = desk.new.desk; old = ticket.old; new = ticket.new }) }
{
    domreth_handle::cached(alloc, desk, cache, ticket)
}

/// Closes a handle, and frees its desk. A closed one stays closed.
#[unsafe(no_mangle)]
pub extern "C" fn domreth_desk_close(alloc: Global, desk: &mut DeskHandle)
    ensures { desk.new.desk ≡ None }
{
    domreth_handle::close(alloc, desk);
}

/// How a cache with so many providers is loaded.
fn loader_of(providers: u32) -> Loader
    ensures { result ≡ loader_of providers }
{
    match providers {
        0 => Loader::Single,
        count => Loader::Chain(count),
    }
}
