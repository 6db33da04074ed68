//! The queue of a cache: its lock, with room for each call that was begun and may still come.
ghost use Rattle.std.specs.Prelude.{◌≡◌, ◌+◌, ◌-◌, ◌<◌, ◌++◌, ◌∷◌, [], false, OnOk, OnErr};
ghost use Rattle.sign_base.specs.Calls.{is_first, is_among};
ghost use Rattle.desk_parts.specs.Queue.{is_held, with_last, without_room};
ghost use Rattle.desk_parts.specs.Queue.{without_call, next_holder, with_room};
ghost use Rattle.desk_parts.specs.QueueView.{next_of_left};

use sign_base::{CallId, NoMemory};
use std::alloc::Global;
use std::marker::Model;
use wake_lock::{Left, WaitLock};

/// The lock of a cache, and how many places in it are reserved: one for each call that was begun and not
/// polled.
#[derive(Drop)]
pub struct CallQueue {
    lock: WaitLock,
    reserved: u32,
}

impl Model for CallQueue {
    ghost use Rattle.desk_parts.specs.Queue.{Queue};

    ghost Value = { Queue };

    ghost use Rattle.desk_parts.specs.QueueView.{queue_view, HasRoom};

    ghost view = { queue_view };

    ghost invariant = { HasRoom };
}

impl CallQueue {
    /// A queue with nobody in it.
    pub fn new(alloc: Global) -> CallQueue
        ensures { result ≡ record { line = []; reserved = 0 } }
    {
        CallQueue {
            lock: WaitLock::new(alloc),
            reserved: 0,
        }
    }

    /// Reserves the place of a call that begins, or changes nothing.
    pub fn reserve_place(&mut self) -> Result<(), NoMemory<()>>
        ensures ok { OnOk result (self.new ≡ with_room self.old) }
        ensures err { OnErr result (self.new ≡ self.old) }
    {
        self.lock.reserve(self.reserved as usize + 1)?;
        self.reserved += 1;
        Ok(())
    }

    /// Whether a call holds.
    pub fn is_held(&self) -> bool
        ensures { result ≡ is_held self.now }
    {
        self.lock.holder().is_some()
    }

    /// Whether this call holds.
    pub fn is_held_by(&self, call: CallId) -> bool
        ensures { result ≡ is_first call self.now.line }
    {
        match self.lock.holder() {
            None => false,
            Some(holder) => call == holder,
        }
    }

    /// The call that gets its turn where this call leaves, which stays as it is.
    pub fn next_after(&self, call: CallId) -> Option<CallId>
        ensures { result ≡ next_holder call self.now.line }
    {
        match self.lock.holder() {
            Some(holder) if call == holder => self.lock.first(),
            _ => None,
        }
    }

    /// A first poll by which the call takes the place that was reserved for it.
    pub fn enter(&mut self, call: CallId)
        requires reserved { 0 < self.old.reserved }
        requires outside { is_among call self.old.line ≡ false }
        ensures { self.new ≡ with_last call self.old }
    {
        let _entered = self.lock.enter(call);
        self.reserved -= 1;
    }

    /// A first poll that ends its call's hold at once, or the end of a call that was never polled.
    pub fn release_place(&mut self)
        requires { 0 < self.old.reserved }
        ensures { self.new ≡ without_room self.old }
    {
        self.reserved -= 1;
    }

    /// Takes the call out, and names the call that gets its turn by this.
    pub fn leave(&mut self, call: CallId) -> Option<CallId>
        ensures next_holder { result ≡ next_holder call self.old.line }
        ensures without_call { self.new ≡ without_call call self.old }
    {
        next_of(self.lock.cancel(call))
    }
}

/// The call that holds the lock by this leave.
fn next_of(without_call: Left) -> Option<CallId>
    ensures { result ≡ next_of_left without_call }
{
    match without_call {
        Left::Holder(next) => next,
        Left::Waiter => None,
        Left::Absent => None,
    }
}
