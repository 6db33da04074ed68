//! Slots in which waiters stand, each with a link to the slot before it and to the slot after it.
//! `read` and `write` are the only ways to a slot that is there, and each of them counts one step.
ghost use Rattle.std.specs.Prelude.{◌≡◌, ◌+◌, ◌^◌, ◌<◌, ◌++◌, [], IfOk, OnOk, OnErr, length, slice_set};
ghost use Rattle.wake_lock.specs.Slots.{slot_at, blank_slot, chained_slots, chain_start};

use crate::CallId;
use crate::steps::Steps;
use sign_base::NoMemory;
use std::alloc::Global;
use std::marker::Model;
use std::sync::ledger::Ledger;

/// A call, and the places of its two neighbours.
#[derive(Clone, Copy, Debug, PartialEq, Eq)]
pub struct Slot {
    pub id: CallId,
    pub before: Option<u32>,
    pub after: Option<u32>,
}

/// A list of slots that only grows.
#[derive(Drop)]
pub struct Slots {
    kept: Vec<Slot>,
}

impl Model for Slots {
    ghost use Rattle.std.specs.Prelude.{List, ◌<◌, ◌^◌, length};
    ghost use Rattle.wake_lock.specs.declared.slots.Slot.{Slot};

    ghost Value = { List Slot };

    ghost view = { λ slots. slots.kept.items };

    ghost invariant = { λ slots. length slots.kept.items < 2 ^ 32 };
}

impl Slots {
    /// No slots. It takes no memory.
    pub fn new(alloc: Global) -> Slots
        ensures { result ≡ [] }
    {
        Slots {
            kept: Vec::new(alloc),
        }
    }

    /// The number of slots.
    pub fn len(&self) -> u32
        ensures { result ≡ length self.now }
    {
        self.kept.len() as u32
    }

    /// The slot at the place. One step.
    pub fn read<L: Ledger>(&self, place: u32, steps: &mut Steps<L>) -> Slot
        requires { place < length self.now }
        ensures slot { result ≡ slot_at self.now place }
        ensures steps { steps.new ≡ steps.old + 1 }
    {
        steps.tick();
        self.kept[place as usize]
    }

    /// Replaces the slot at the place, and no other. One step.
    pub fn write<L: Ledger>(&mut self, place: u32, slot: Slot, steps: &mut Steps<L>)
        requires { place < length self.old }
        ensures slots { self.new ≡ slice_set self.old place slot }
        ensures steps { steps.new ≡ steps.old + 1 }
    {
        steps.tick();
        self.kept[place as usize] = slot;
    }

    /// So many more slots, at the end, linked to one another and to the slot given; the place where
    /// the links start. After a failed allocation nothing has changed.
    pub(crate) fn grow_linked(
        &mut self,
        n: u32,
        after: Option<u32>,
    ) -> Result<Option<u32>, NoMemory<()>>
        requires { length self.old + n < 2 ^ 32 }
        ensures start { IfOk result (λ start. start ≡ chain_start (length self.old) n after) }
        ensures slots { OnOk result (self.new ≡ self.old ++ chained_slots (length self.old) n after) }
        ensures refused { OnErr result (self.new ≡ self.old) }
    {
        self.kept.reserve(n as usize)?;
        let first = self.len();
        let mut start = after;
        for place in first..first + n {
            self.kept.push_reserved(Slot {
                after: start,
                ..blank_slot()
            });
            start = Some(place);
        }
        Ok(start)
    }
}

/// A slot that nobody has used.
fn blank_slot() -> Slot
    ensures { result ≡ blank_slot }
{
    Slot {
        id: CallId {
            handle: 0,
            number: 0,
        },
        before: None,
        after: None,
    }
}
