//! The calls of the lock for those who count no steps: each opens a count of its own.
ghost use Rattle.std.specs.Prelude.{◌≡◌, ◌<◌, false, IsSome};
ghost use Rattle.sign_base.specs.Calls.{first_of};
ghost use Rattle.wake_lock.specs.Lock.{is_in_line};
ghost use Rattle.wake_lock.specs.LockCalls.{Enters, Releases, Cancels};
ghost use Rattle.wake_lock.specs.WaitList.{calls_of};

use crate::CallId;
use crate::lock::{Entered, Left, WaitLock};
use crate::steps::Steps;
use crate::wait_list::WaitList;
use std::sync::ledger::{Blank, Ledger};

/// `WaitList::first_call`.
pub(crate) fn first<L: Ledger>(waiters: &WaitList, blank: Blank) -> Option<CallId>
    requires name { blank.name ≡ L.name }
    requires parts { blank.parts ≡ L.parts }
    requires share { 0 < blank.parts }
    ensures { result ≡ first_of (calls_of waiters.now.waiters) }
{
    let mut steps = Steps::<L>::new(blank);
    waiters.first_call(&mut steps)
}

/// `WaitLock::enter_counted`.
pub(crate) fn enter<L: Ledger>(lock: &mut WaitLock, id: CallId, blank: Blank) -> Entered
    requires name { blank.name ≡ L.name }
    requires parts { blank.parts ≡ L.parts }
    requires share { 0 < blank.parts }
    requires room { 0 < lock.old.spare }
    requires outside { is_in_line id lock.old ≡ false }
    ensures { Enters id lock.old result lock.new }
{
    let mut steps = Steps::<L>::new(blank);
    lock.enter_counted(id, &mut steps)
}

/// `WaitLock::release_counted`.
pub(crate) fn release<L: Ledger>(lock: &mut WaitLock, blank: Blank) -> Option<CallId>
    requires name { blank.name ≡ L.name }
    requires parts { blank.parts ≡ L.parts }
    requires share { 0 < blank.parts }
    requires held { IsSome lock.old.holder }
    ensures { Releases lock.old result lock.new }
{
    let mut steps = Steps::<L>::new(blank);
    lock.release_counted(&mut steps)
}

/// `WaitLock::cancel_counted`.
pub(crate) fn cancel<L: Ledger>(lock: &mut WaitLock, id: CallId, blank: Blank) -> Left
    requires name { blank.name ≡ L.name }
    requires parts { blank.parts ≡ L.parts }
    requires share { 0 < blank.parts }
    ensures { Cancels id lock.old result lock.new }
{
    let mut steps = Steps::<L>::new(blank);
    lock.cancel_counted(id, &mut steps)
}
