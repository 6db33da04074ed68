//! The calls that wait, in the order in which they came. Each stands in a slot that names its two
//! neighbours, so it leaves the middle without a walk along the others. The slots in which nobody
//! waits are linked too, and are used again before a new one is made.
ghost use Rattle.std.specs.Prelude.{◌≡◌, ◌+◌, ◌<◌, ◌≤◌, ◌++◌, ◌∷◌, [], Option, OnOk, OnErr, length, max};
ghost use Rattle.std.specs.Option.{ForSome};
ghost use Rattle.sign_base.specs.Calls.{first_of};
ghost use Rattle.wake_lock.specs.Links.{times, with_after, with_before, end_with};
ghost use Rattle.wake_lock.specs.WaitList.{calls_of, places_of, first_place, TakesOut};

use crate::CallId;
use crate::slots::{Slot, Slots};
use crate::steps::Steps;
use sign_base::NoMemory;
use std::alloc::Global;
use std::marker::Model;
use std::sync::ledger::Ledger;

/// The waiters, and the slots that are vacant.
#[derive(Drop)]
pub struct WaitList {
    slots: Slots,
    head: Option<u32>,
    tail: Option<u32>,
    free: Option<u32>,
    vacant: usize,
}

impl Model for WaitList {
    ghost use Rattle.wake_lock.specs.WaitList.{Waiting};

    ghost Value = { Waiting };

    ghost use Rattle.wake_lock.specs.WaitListView.{wait_list_view, IsWaitList};

    ghost view = { wait_list_view };

    ghost invariant = { IsWaitList };
}

impl WaitList {
    /// Nobody waits, and there are no slots. It takes no memory.
    pub fn new(alloc: Global) -> WaitList
        ensures { result ≡ record { waiters = []; vacant = 0 } }
    {
        WaitList {
            slots: Slots::new(alloc),
            head: None,
            tail: None,
            free: None,
            vacant: 0,
        }
    }

    /// The place of the first waiter.
    pub fn first(&self) -> Option<u32>
        ensures { result ≡ first_place self.now.waiters }
    {
        self.head
    }

    /// The first waiter. At most one step.
    pub fn first_call<L: Ledger>(&self, steps: &mut Steps<L>) -> Option<CallId>
        ensures call { result ≡ first_of (calls_of self.now.waiters) }
        ensures steps { steps.new ≤ steps.old + 1 }
    {
        match self.head {
            None => None,
            Some(place) => Some(self.slots.read(place, steps).id),
        }
    }

    /// Makes slots until so many are vacant, and no more. It fails where an allocation failed, or where
    /// there were more slots than a place can number; then nothing has changed.
    pub fn reserve(&mut self, n: usize) -> Result<(), NoMemory<()>>
        ensures waiters { self.new.waiters ≡ self.old.waiters }
        ensures vacant { OnOk result (self.new.vacant ≡ max self.old.vacant n) }
        ensures refused { OnErr result (self.new ≡ self.old) }
    {
        let missing = n.saturating_sub(self.vacant);
        if missing > (u32::MAX - self.slots.len()) as usize {
            return Err(NoMemory { back: () });
        }
        self.free = self.slots.grow_linked(missing as u32, self.free)?;
        self.vacant += missing;
        Ok(())
    }

    /// Puts the call behind all waiters, and answers its place. At most four steps.
    pub fn push<L: Ledger>(&mut self, id: CallId, steps: &mut Steps<L>) -> u32
        requires { 0 < self.old.vacant }
        ensures waiters { self.new.waiters ≡ self.old.waiters ++ (id, result) ∷ [] }
        ensures vacant { self.new.vacant + 1 ≡ self.old.vacant }
        ensures steps { steps.new ≤ steps.old + 4 }
    {
        let Some(place) = self.free else {
            unreachable!()
        };
        let before = self.tail;
        self.free = self.slots.read(place, steps).after;
        self.slots.write(
            place,
            Slot {
                id,
                before,
                after: None,
            },
            steps,
        );
        link_after(&mut self.slots, &mut self.head, before, Some(place), steps);
        self.tail = Some(place);
        self.vacant -= 1;
        place
    }

    /// Takes out the waiter at the place, and leaves its slot vacant. At most six steps.
    pub fn take<L: Ledger>(&mut self, place: u32, steps: &mut Steps<L>) -> CallId
        requires { 0 < times place (places_of self.old.waiters) }
        ensures waiters { TakesOut self.old.waiters place result self.new.waiters }
        ensures vacant { self.new.vacant ≡ self.old.vacant + 1 }
        ensures steps { steps.new ≤ steps.old + 6 }
    {
        let slot = self.slots.read(place, steps);
        let (before, after) = (slot.before, slot.after);
        link_after(&mut self.slots, &mut self.head, before, after, steps);
        link_before(&mut self.slots, &mut self.tail, after, before, steps);
        let after = self.free;
        let vacated = Slot {
            before: None,
            after,
            ..slot
        };
        self.slots.write(place, vacated, steps);
        self.free = Some(place);
        self.vacant += 1;
        slot.id
    }
}

/// The slot at the place names another as the one after it; where there is no such slot, the head does.
fn link_after<L: Ledger>(
    slots: &mut Slots,
    head: &mut Option<u32>,
    place: Option<u32>,
    after: Option<u32>,
    steps: &mut Steps<L>,
)
    requires { ForSome place (λ here. here < length slots.old) }
    ensures slots { slots.new ≡ with_after slots.old place after }
    ensures head { head.new ≡ end_with place head.old after }
    ensures steps { steps.new ≤ steps.old + 2 }
{
    match place {
        None => *head = after,
        Some(place) => {
            let slot = slots.read(place, steps);
            slots.write(place, Slot { after, ..slot }, steps);
        }
    }
}

/// The slot at the place names another as the one before it; where there is no such slot, the tail does.
fn link_before<L: Ledger>(
    slots: &mut Slots,
    tail: &mut Option<u32>,
    place: Option<u32>,
    before: Option<u32>,
    steps: &mut Steps<L>,
)
    requires { ForSome place (λ here. here < length slots.old) }
    ensures slots { slots.new ≡ with_before slots.old place before }
    ensures tail { tail.new ≡ end_with place tail.old before }
    ensures steps { steps.new ≤ steps.old + 2 }
{
    match place {
        None => *tail = before,
        Some(place) => {
            let slot = slots.read(place, steps);
            slots.write(place, Slot { before, ..slot }, steps);
        }
    }
}
