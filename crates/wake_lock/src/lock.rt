//! The lock of a cache, first come, first served. The holder stands apart, and the waiters stand in
//! a list in the order in which they came: `release` hands the lock to the first of them, and a call
//! that comes later never overtakes one that waits. Nobody is woken here: a call that changes the
//! holder names the new one, and its driver wakes it. Room is taken ahead, by `reserve` alone, so no
//! wait fails later.
//!
//! The waiters stand in linked slots, and an index names the slot of each, so a call leaves from
//! anywhere without a walk along the others. Each call also has a form that counts its steps: one
//! for each read and each write of a slot. Finding a call in the index is not counted.
ghost use Rattle.std.specs.Prelude.{◌≡◌, ◌+◌, ◌-◌, ◌^◌, ◌<◌, ◌≤◌, ◌++◌, ◌∷◌, [], None, Some};
ghost use Rattle.std.specs.Prelude.{Option, true, false, not, filter, drop, is_some, length};
ghost use Rattle.std.specs.Prelude.{max, IsSome, IsOk, IsTrue, OnOk, OnErr, if◌then◌else◌};
ghost use Rattle.sign_base.specs.Calls.{same_call, first_of, is_among};
ghost use Rattle.wake_lock.specs.Lock.{line, is_held_by, is_in_line, IsLock};
ghost use Rattle.wake_lock.specs.LockCalls.{Enters, Releases, Cancels};

use crate::steps::Steps;
use crate::wait_list::WaitList;
use crate::{CallId, uncounted};
use sign_base::NoMemory;
use std::alloc::Global;
use std::collections::HashMap;
use std::marker::{Brand, Model};
use std::sync::ledger::{Blank, Ledger};

/// What a call finds that comes to the lock.
#[derive(Clone, Copy, Debug, PartialEq, Eq)]
pub enum Entered {
    /// It holds the lock.
    Granted,
    /// It waits, behind all that came before.
    Queued,
}

/// What a call was that leaves the lock.
#[derive(Clone, Copy, Debug, PartialEq, Eq)]
pub enum Left {
    /// It held the lock. The call named holds it now.
    Holder(Option<CallId>),
    /// It waited.
    Waiter,
    /// Neither.
    Absent,
}

/// A lock whose waiters are served in the order in which they came.
#[derive(Drop)]
pub struct WaitLock {
    holder: Option<CallId>,
    waiters: WaitList,
    index: HashMap<CallId, u32>,
    room: u32,
}

impl Model for WaitLock {
    ghost use Rattle.wake_lock.specs.Lock.{Lock};

    ghost Value = { Lock };

    ghost use Rattle.wake_lock.specs.LockView.{lock_view, IsWaitLock};

    ghost view = { lock_view };

    ghost invariant = { IsWaitLock };
}

impl WaitLock {
    /// A lock that nobody holds. It takes no memory.
    pub fn new(alloc: Global) -> WaitLock
        ensures { result ≡ record { holder = None; waiters = []; spare = 0; slots = 0 } }
    {
        WaitLock {
            holder: None,
            waiters: WaitList::new(alloc),
            index: HashMap::new(alloc),
            room: 0,
        }
    }

    /// Makes room for this many calls to enter, where there is not so much yet, and no more slots than
    /// they take. Holder and waiters stay. Memory is refused only where there is not so much room yet,
    /// and then nothing has changed, the room neither. It never shrinks here.
    /// Room for more calls than slots can be numbered is refused too.
    pub fn reserve(&mut self, n: usize) -> Result<(), NoMemory<()>>
        ensures room { OnOk result (n ≤ self.new.spare) }
        ensures numbered { OnOk result (n < 2 ^ 32) }
        ensures refused { OnErr result (self.old.spare < n) }
        ensures unchanged { OnErr result (self.new ≡ self.old) }
        ensures there { n ≤ self.old.spare → IsOk result }
        ensures spare { self.old.spare ≤ self.new.spare }
        ensures spare_made { OnOk result (self.new.spare ≡ max self.old.spare n) }
        ensures slots { OnOk result
            (self.new.slots ≡ max self.old.slots (length self.old.waiters + n)) }
        ensures holder { self.new.holder ≡ self.old.holder }
        ensures waiters { self.new.waiters ≡ self.old.waiters }
    {
        if n <= self.room as usize {
            return Ok(());
        }
        if n > u32::MAX as usize {
            return Err(NoMemory { back: () });
        }
        self.index.reserve(n)?;
        self.waiters.reserve(n)?;
        self.room = n as u32;
        Ok(())
    }

    /// Gives the lock to a call that comes, or puts it behind all waiters. It takes no memory.
    pub fn enter(&mut self, id: CallId) -> Entered
        requires room { 0 < self.old.spare }
        requires outside { is_in_line id self.old ≡ false }
        ensures answer { result ≡ (if is_some self.old.holder then Entered.Queued else Entered.Granted) }
        ensures holder { self.new.holder ≡ (if is_some self.old.holder then self.old.holder else Some id) }
        ensures waiters { self.new.waiters ≡
            (if is_some self.old.holder then self.old.waiters ++ id ∷ [] else []) }
        ensures line { line self.new ≡ line self.old ++ id ∷ [] }
        ensures spare { self.old.spare ≤ self.new.spare + 1 }
        ensures spare_left { self.new.spare ≡
            (if is_some self.old.holder then self.old.spare - 1 else self.old.spare) }
        ensures slots { self.new.slots ≡ self.old.slots }
    {
        uncounted::enter::<Brand>(self, id, Blank::new(1))
    }

    /// Does what `enter` does, in at most eight counted steps.
    pub fn enter_counted<L: Ledger>(&mut self, id: CallId, steps: &mut Steps<L>) -> Entered
        requires room { 0 < self.old.spare }
        requires outside { is_in_line id self.old ≡ false }
        ensures does { Enters id self.old result self.new }
        ensures steps { steps.new ≤ steps.old + 8 }
    {
        match self.holder {
            None => {
                self.holder = Some(id);
                Entered::Granted
            }
            Some(_) => {
                let place = self.waiters.push(id, steps);
                let Ok(_) = self.index.insert(id, place) else {
                    unreachable!()
                };
                self.room -= 1;
                Entered::Queued
            }
        }
    }

    /// Takes the lock from its holder, and gives it to the first waiter, who is named. It takes no memory.
    pub fn release(&mut self) -> Option<CallId>
        requires { IsSome self.old.holder }
        ensures answer { result ≡ first_of self.old.waiters }
        ensures holder { self.new.holder ≡ first_of self.old.waiters }
        ensures waiters { self.new.waiters ≡ drop 1 self.old.waiters }
        ensures line { line self.new ≡ drop 1 (line self.old) }
        ensures spare { self.old.spare ≤ self.new.spare }
        ensures spare_left { self.new.spare ≡ self.old.spare }
        ensures slots { self.new.slots ≡ self.old.slots }
    {
        uncounted::release::<Brand>(self, Blank::new(1))
    }

    /// Does what `release` does, in at most eight counted steps.
    pub fn release_counted<L: Ledger>(&mut self, steps: &mut Steps<L>) -> Option<CallId>
        requires { IsSome self.old.holder }
        ensures does { Releases self.old result self.new }
        ensures steps { steps.new ≤ steps.old + 8 }
    {
        let Some(place) = self.waiters.first() else {
            self.holder = None;
            return None;
        };
        let next = self.waiters.take(place, steps);
        let _place = self.index.remove(&next);
        self.holder = Some(next);
        Some(next)
    }

    /// Takes the call out of the lock, whatever it is there. It takes no memory.
    pub fn cancel(&mut self, id: CallId) -> Left
        ensures answer { result ≡ (if is_held_by id self.old then Left.Holder (first_of self.old.waiters)
            else if is_among id self.old.waiters then Left.Waiter else Left.Absent) }
        ensures holder { self.new.holder ≡
            (if is_held_by id self.old then first_of self.old.waiters else self.old.holder) }
        ensures waiters { self.new.waiters ≡ (if is_held_by id self.old then drop 1 self.old.waiters
            else filter (λ other. not (same_call other id)) self.old.waiters) }
        ensures line { line self.new ≡ filter (λ other. not (same_call other id)) (line self.old) }
        ensures absent { result ≡ Left.Absent → self.new ≡ self.old }
        ensures lock { IsLock self.old }
        ensures spare { self.old.spare ≤ self.new.spare }
        ensures spare_left { self.new.spare ≡ self.old.spare }
        ensures slots { self.new.slots ≡ self.old.slots }
    {
        uncounted::cancel::<Brand>(self, id, Blank::new(1))
    }

    /// Does what `cancel` does, in at most eight counted steps.
    pub fn cancel_counted<L: Ledger>(&mut self, id: CallId, steps: &mut Steps<L>) -> Left
        ensures does { Cancels id self.old result self.new }
        ensures steps { steps.new ≤ steps.old + 8 }
    {
        if self.is_held_by(id) {
            return Left::Holder(self.release_counted(steps));
        }
        match self.index.remove(&id) {
            None => Left::Absent,
            Some(place) => {
                let _id = self.waiters.take(place, steps);
                Left::Waiter
            }
        }
    }

    /// Whether the call holds the lock.
    fn is_held_by(&self, id: CallId) -> bool
        ensures answer { result ≡ is_held_by id self.now }
        ensures lock { IsLock self.now }
    {
        match self.holder {
            None => false,
            Some(holder) => holder == id,
        }
    }

    /// The call that holds the lock. While nobody holds it nobody waits, and no call stands twice.
    pub fn holder(&self) -> Option<CallId>
        ensures answer { result ≡ self.now.holder }
        ensures lock { IsLock self.now }
    {
        self.holder
    }

    /// The first call that waits.
    pub fn first(&self) -> Option<CallId>
        ensures { result ≡ first_of self.now.waiters }
    {
        uncounted::first::<Brand>(&self.waiters, Blank::new(1))
    }
}
