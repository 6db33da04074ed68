//! What is added to the desk that a handle holds, before its first call.
ghost use Rattle.std.specs.Prelude.{◌≡◌};
ghost use Rattle.domreth_handle.specs.Calls.{AddsCache, AddsRule, AddsHandle};
ghost use Rattle.domreth_handle.specs.Statuses.{setup_status, IsNumbered};
ghost use Rattle.domreth_handle.specs.Statuses.{setup_status};

use crate::DeskHandle;
use crate::time::time_of;
use domreth_desk::{Loader, Margin, SetupError};
use std::alloc::Global;

/// Adds an empty cache with this loader, and hands its number out.
pub fn add_cache(alloc: Global, handle: &mut DeskHandle, loader: Loader, number: &mut u32) -> u8
    ensures { AddsCache loader handle.old.desk result
        (record { before = handle.old.desk; after = handle.new.desk; old = number.old; new = number.new }) }
{
    let Some(mut desk) = handle.take(alloc) else {
        return 40;
    };
    let added = domreth_desk::add_cache(&mut desk, loader);
    handle.put(desk);
    hand_number(added, number)
}

/// Adds a rule by which a credential lasts so much longer than to the end of an operation, and hands its
/// number out.
pub fn add_rule(
    alloc: Global,
    handle: &mut DeskHandle,
    seconds: u64,
    nanos: u32,
    number: &mut u32,
) -> u8
    ensures { AddsRule seconds nanos handle.old.desk result
        (record { before = handle.old.desk; after = handle.new.desk; old = number.old; new = number.new }) }
{
    let Some(mut desk) = handle.take(alloc) else {
        return 40;
    };
    let Some(margin) = time_of(seconds, nanos) else {
        handle.put(desk);
        return 11;
    };
    let added = domreth_desk::add_rule(&mut desk, Margin { margin });
    handle.put(desk);
    hand_number(added, number)
}

/// Adds a handle of the desk's on this cache with this rule, and hands its number out.
pub fn add_handle(
    alloc: Global,
    handle: &mut DeskHandle,
    cache: u32,
    rule: u32,
    number: &mut u32,
) -> u8
    ensures { AddsHandle cache rule handle.old.desk result
        (record { before = handle.old.desk; after = handle.new.desk; old = number.old; new = number.new }) }
{
    let Some(mut desk) = handle.take(alloc) else {
        return 40;
    };
    let added = domreth_desk::add_handle(&mut desk, cache, rule);
    handle.put(desk);
    hand_number(added, number)
}

/// Hands the number out, or says why there is none.
fn hand_number(added: Result<u32, SetupError>, number: &mut u32) -> u8
    ensures { IsNumbered added number.old result number.new }
{
    match added {
        Ok(next) => {
            *number = next;
            0
        }
        Err(why) => setup_status(why),
    }
}

fn setup_status(why: SetupError) -> u8
    ensures { result ≡ setup_status why }
{
    match why {
        SetupError::OutOfMemory => 6,
        SetupError::Full => 41,
        SetupError::Late => 42,
        SetupError::NoCache => 43,
        SetupError::NoRule => 44,
    }
}
