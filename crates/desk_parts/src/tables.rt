//! What a desk keeps: a table for each kind of place, and the live calls by their names. A cache has its
//! row in `loaders`, `caches` and `queues`, a handle in `handles` and `last_numbers`.
ghost use Rattle.std.specs.Prelude.{◌≡◌, [], false, option_map, option_copied, IfSome, slice_get};

use crate::call_record::{CallRecord, Stage};
use sequential_signer::{DeadlineRule, Loader, SigningCredential};
use sign_base::{CallId, EqualByValue};
use std::alloc::Global;
use std::collections::BTreeMap;
use std::marker::Model;
use std::time::Duration;

/// A handle: its cache and its rule, by their places.
#[derive(Clone, Copy, Debug, PartialEq, Eq)]
pub struct HandleRecord {
    pub cache: u32,
    pub rule: u32,
}

impl EqualByValue for HandleRecord {
    ghost use Rattle.std.proofs.Common.{rules};

    ghost by_value = { Prim.search rules };
}

/// A live call, as an event finds it: its places, and what is kept of it beside its head.
#[derive(Clone, Copy, Debug)]
pub struct LiveCallView {
    pub call: CallId,
    pub cache: u32,
    pub rule: u32,
    pub stage: Stage,
    pub expires_in: Option<Duration>,
    pub answers: u32,
}

/// What a desk keeps. `Q` is what it keeps of each cache beside its credential, `H` the head that a call
/// is begun with; a desk that needs neither has types without a value in them.
#[derive(Drop)]
pub struct Tables<K, D, Q, H> {
    pub alloc: Global,
    pub loaders: Vec<Loader>,
    pub rules: Vec<D>,
    pub handles: Vec<HandleRecord>,
    pub caches: Vec<Option<K>>,
    pub queues: Vec<Q>,
    /// The number of the last call begun under each handle, which is the greatest so far.
    pub last_numbers: Vec<Option<u64>>,
    pub has_begun_calls: bool,
    pub calls: BTreeMap<CallId, CallRecord<H>>,
}

impl<K, D, Q, H> Model for Tables<K, D, Q, H> {
    ghost use Rattle.desk_parts.specs.Tables.{DeskTables};

    ghost Value = { DeskTables K D Q H };

    ghost use Rattle.desk_parts.specs.TablesView.{tables_view};

    ghost view = { tables_view };
}

impl<K: SigningCredential, D: DeadlineRule<Credential = K>, Q: Drop, H: Drop> Tables<K, D, Q, H> {
    ghost use Rattle.desk_parts.specs.Tables.{find_call};
    ghost use Rattle.desk_parts.specs.TablesView.{handle_view};
    ghost use Rattle.desk_parts.specs.LiveCallView.{find_view};
    ghost use Rattle.desk_parts.specs.Begin.{can_begin};

    /// No caches, rules, handles or calls.
    pub fn new(alloc: Global) -> Tables<K, D, Q, H>
        ensures { result ≡ record {
          loaders = [];
          rules = [];
          handles = [];
          caches = [];
          queues = [];
          greatest = [];
          started = false;
          calls = [];
        } }
    {
        Tables {
            alloc,
            loaders: Vec::new(alloc),
            rules: Vec::new(alloc),
            handles: Vec::new(alloc),
            caches: Vec::new(alloc),
            queues: Vec::new(alloc),
            last_numbers: Vec::new(alloc),
            has_begun_calls: false,
            calls: BTreeMap::new(alloc),
        }
    }

    /// Whether a begin was accepted.
    pub fn has_begun_calls(&self) -> bool
        ensures { result ≡ self.now.started }
    {
        self.has_begun_calls
    }

    /// The handle at this place.
    pub fn handle_at(&self, handle: u32) -> Option<HandleRecord>
        ensures { option_map handle_view result ≡ slice_get self.now.handles handle }
    {
        self.handles.get(handle as usize).copied()
    }

    /// Whether a begin of the call fits.
    pub fn begin_fits(&self, call: CallId) -> bool
        ensures { result ≡ can_begin self.now call }
    {
        let place = call.handle as usize;
        if place >= self.handles.len() || place >= self.last_numbers.len() {
            return false;
        }
        match self.last_numbers[place] {
            Some(last) => last < call.number,
            None => true,
        }
    }

    /// The record of a call.
    pub fn record_of(&self, call: CallId) -> Option<&CallRecord<H>>
        ensures { option_copied result ≡ find_call call self.now.calls }
    {
        self.calls.get(&call)
    }

    /// The live call of this name.
    pub fn find(&self, call: CallId) -> Option<LiveCallView>
        ensures view { result ≡ find_view self.now call }
        ensures named { IfSome result (λ view. view.call ≡ call) }
    {
        let live = self.record_of(call)?;
        let handle = self.handle_at(call.handle)?;
        Some(LiveCallView {
            call,
            cache: handle.cache,
            rule: handle.rule,
            stage: live.stage,
            expires_in: live.expires_in,
            answers: live.answers,
        })
    }
}
