//! The queues of a signer's caches, in its tables: calls come, wait and leave.
ghost use Rattle.std.specs.Prelude.{◌≡◌, true, Some, IfSome, OnOk, OnErr, length, slice_get, ◌<◌};

use crate::call_record::CallRecord;
use crate::queue::CallQueue;
use crate::tables::Tables;
use sequential_signer::{DeadlineRule, SigningCredential};
use sign_base::{CallId, NoMemory};

impl<K: SigningCredential, D: DeadlineRule<Credential = K>, H: Drop> Tables<K, D, CallQueue, H> {
    ghost use Rattle.sign_base.specs.Calls.{is_first};
    ghost use Rattle.desk_parts.specs.Queue.{is_held_queue, queue_at, with_last, without_room};
    ghost use Rattle.desk_parts.specs.Queue.{without_call, next_holder, with_room, MayEnter};
    ghost use Rattle.desk_parts.specs.Places.{HasPlaces};
    ghost use Rattle.desk_parts.specs.Begin.{can_begin, with_begin};
    ghost use Rattle.desk_parts.specs.Change.{ChangesOnlyCall, with_queue};

    /// Reserves the place of one more call in the queue of a cache, or changes nothing.
    fn reserve_place(&mut self, cache: u32) -> Result<(), NoMemory<()>>
        requires { cache < length self.old.queues }
        ensures ok { OnOk result (self.new ≡ with_queue with_room cache self.old) }
        ensures err { OnErr result (self.new ≡ self.old) }
    {
        self.queues[cache as usize].reserve_place()
    }

    /// Takes a call in under its handle, with its place in the queue and its record, or changes nothing.
    pub fn insert_call(&mut self, call: CallId, live: CallRecord<H>) -> Result<(), NoMemory<()>>
        requires places { IfSome (slice_get self.old.handles call.handle)
            (λ handle. HasPlaces self.old handle.cache handle.rule) }
        requires fits { can_begin self.old call ≡ true }
        ensures ok { OnOk result (ChangesOnlyCall (with_begin call self.old) call (Some live) self.new) }
        ensures err { OnErr result (self.new ≡ self.old) }
    {
        let cache = self.cache_of_handle(call.handle);
        self.reserve_place(cache)?;
        if let Err(failed) = self.insert_record(call, live) {
            self.release_place(cache);
            return Err(failed);
        }
        self.note_begin(call);
        Ok(())
    }

    /// Whether the lock of a cache is held.
    pub fn is_held(&self, cache: u32) -> bool
        requires { cache < length self.now.queues }
        ensures { result ≡ is_held_queue (queue_at cache self.now.queues) }
    {
        self.queues[cache as usize].is_held()
    }

    /// Whether the call holds the lock of a cache.
    pub fn is_held_by(&self, cache: u32, call: CallId) -> bool
        requires { cache < length self.now.queues }
        ensures { result ≡ is_first call (queue_at cache self.now.queues) }
    {
        self.queues[cache as usize].is_held_by(call)
    }

    /// The call that gets its turn where this call leaves the line of a cache.
    pub fn next_after(&self, cache: u32, call: CallId) -> Option<CallId>
        requires { cache < length self.now.queues }
        ensures { result ≡ next_holder call (queue_at cache self.now.queues) }
    {
        self.queues[cache as usize].next_after(call)
    }

    /// Puts a call that is first polled into the line of its cache.
    pub fn enter(&mut self, cache: u32, call: CallId)
        requires there { cache < length self.old.queues }
        requires may { IfSome (slice_get self.old.queues cache) (MayEnter call) }
        ensures { self.new ≡ with_queue (with_last call) cache self.old }
    {
        self.queues[cache as usize].enter(call);
    }

    /// Gives back the reserved place of a call that does not enter the line of its cache.
    pub fn release_place(&mut self, cache: u32)
        requires there { cache < length self.old.queues }
        requires counted { IfSome (slice_get self.old.queues cache) (λ queue. 0 < queue.reserved) }
        ensures { self.new ≡ with_queue without_room cache self.old }
    {
        self.queues[cache as usize].release_place();
    }

    /// Takes a call out of the line of its cache, and names the call that gets its turn by this.
    pub fn leave(&mut self, cache: u32, call: CallId) -> Option<CallId>
        requires { cache < length self.old.queues }
        ensures next_holder { result ≡ next_holder call (queue_at cache self.old.queues) }
        ensures without_call { self.new ≡ with_queue (without_call call) cache self.old }
    {
        self.queues[cache as usize].leave(call)
    }
}
