//! The small changes of live calls of which each step is made. Live calls are found by their names, so no
//! change goes over all of them.
ghost use Rattle.std.specs.Prelude.{◌≡◌, true, Some, None, option_map, IsSome};
ghost use Rattle.std.specs.Prelude.{OnOk, OnErr, length, slice_get, slice_set, ◌<◌};

use crate::call_record::CallRecord;
use crate::tables::{LiveCallView, Tables};
use sequential_signer::{DeadlineRule, SigningCredential};
use sign_base::{CallId, NoMemory};

impl<K: SigningCredential, D: DeadlineRule<Credential = K>, Q: Drop, H: Drop> Tables<K, D, Q, H> {
    ghost use Rattle.desk_parts.specs.Tables.{find_call};
    ghost use Rattle.desk_parts.specs.Change.{ChangesOnlyCall};
    ghost use Rattle.desk_parts.specs.Action.{as_viewed};
    ghost use Rattle.desk_parts.specs.Begin.{cache_at, can_begin, with_number};

    /// Notes the stage of a live call and the number of its answers.
    pub fn note_progress(&mut self, view: LiveCallView)
        requires { IsSome (find_call view.call self.old.calls) }
        ensures { ChangesOnlyCall self.old view.call
            (option_map (as_viewed view) (find_call view.call self.old.calls)) self.new }
    {
        let live = self.calls.get_mut(&view.call).unwrap();
        live.stage = view.stage;
        live.answers = view.answers;
    }

    /// The cache of a handle that is there.
    pub fn cache_of_handle(&self, handle: u32) -> u32
        requires { IsSome (slice_get self.now.handles handle) }
        ensures { result ≡ cache_at (slice_get self.now.handles handle) }
    {
        self.handles.get(handle as usize).unwrap().cache
    }

    /// Keeps the record of a call, or changes nothing.
    pub fn insert_record(&mut self, call: CallId, live: CallRecord<H>) -> Result<(), NoMemory<()>>
        ensures ok { OnOk result (ChangesOnlyCall self.old call (Some live) self.new) }
        ensures err { OnErr result (self.new ≡ self.old) }
    {
        let _before = self.calls.insert(call, live)?;
        Ok(())
    }

    /// Notes that a begin was accepted, with its number.
    pub fn note_begin(&mut self, call: CallId)
        requires { call.handle < length self.old.greatest }
        ensures { self.new ≡ with_number call self.old }
    {
        self.last_numbers[call.handle as usize] = Some(call.number);
        self.has_begun_calls = true;
    }

    /// Takes a call in, where it waits in no queue: its record and its number, or changes nothing.
    pub fn begin_call(&mut self, call: CallId, live: CallRecord<H>) -> Result<(), NoMemory<()>>
        requires { can_begin self.old call ≡ true }
        ensures ok { OnOk result (ChangesOnlyCall (with_number call self.old) call (Some live) self.new) }
        ensures err { OnErr result (self.new ≡ self.old) }
    {
        self.insert_record(call, live)?;
        self.note_begin(call);
        Ok(())
    }

    /// Hands out the record of a call, and keeps nothing of the call any more.
    pub fn take_record(&mut self, call: CallId) -> Option<CallRecord<H>>
        ensures record { result ≡ find_call call self.old.calls }
        ensures ended { ChangesOnlyCall self.old call None self.new }
    {
        self.calls.remove(&call)
    }

    /// Keeps nothing of a call any more.
    pub fn end_call(&mut self, call: CallId)
        ensures { ChangesOnlyCall self.old call None self.new }
    {
        let _ended = self.take_record(call);
    }

    /// Keeps a credential in a cache.
    pub fn store(&mut self, cache: u32, credential: K)
        requires { cache < length self.old.caches }
        ensures { self.new ≡ record self.old { caches = slice_set self.old.caches cache (Some credential) } }
    {
        self.caches[cache as usize] = Some(credential);
    }
}
