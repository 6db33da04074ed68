//! The open calls of one cache in order: the one that holds, then those that wait. A call leaves from
//! anywhere without a walk along the others.
ghost use Rattle.std.specs.Prelude.{◌≡◌, ◌++◌, ◌∷◌, [], false, not, filter, IfOk, OnOk, OnErr};
ghost use Rattle.sign_base.specs.Calls.{same_call, is_among, first_of};
ghost use Rattle.sequential_signer.specs.Turn.{before_call};

use lru::LruCache;
use sign_base::{CallId, NoMemory};
use std::alloc::{AllocError, Global};
use std::marker::Model;

/// The calls, in the order in which they came.
#[derive(Drop)]
pub(crate) struct WaitOrder {
    // The first stands where the cache has its most recently used entry.
    calls: LruCache<CallId, ()>,
}

impl Model for WaitOrder {
    ghost use Rattle.std.specs.Prelude.{◌≡◌, ◌-◌, ◌^◌, List};
    ghost use Rattle.std.specs.Map.{keys_of};
    ghost use Rattle.sign_base.specs.declared.call_id.CallId.{CallId};
    ghost use Rattle.sign_base.specs.Calls.{IsOnce};

    ghost Value = { List CallId };

    ghost view = { λ order. keys_of order.calls.entries };

    ghost invariant = { λ order. (order.calls.cap ≡ 2 ^ 64 - 1) × IsOnce (keys_of order.calls.entries) };
}

impl WaitOrder {
    /// Nobody waits.
    pub(crate) fn new(alloc: Global) -> Result<WaitOrder, AllocError>
        ensures { IfOk result (λ order. order ≡ []) }
    {
        Ok(WaitOrder {
            calls: LruCache::unbounded(alloc)?,
        })
    }

    /// Puts a call behind all others. After a failed allocation nothing has changed.
    pub(crate) fn enter(&mut self, call: CallId) -> Result<(), NoMemory<()>>
        requires { is_among call self.old ≡ false }
        ensures entered { OnOk result (self.new ≡ self.old ++ call ∷ []) }
        ensures unchanged { OnErr result (self.new ≡ self.old) }
    {
        // A full cache would give a call away for this one.
        prove!(self.calls.len() < usize::MAX);
        self.calls.put(call, ())?;
        self.calls.demote(&call);
        Ok(())
    }

    /// Takes a call out, if it is there.
    pub(crate) fn leave(&mut self, call: CallId)
        ensures { self.new ≡ filter (λ other. not (same_call other call)) self.old }
    {
        self.calls.pop(&call);
    }

    /// The first in order.
    pub(crate) fn first(&self) -> Option<CallId>
        ensures { result ≡ first_of self.now }
    {
        match self.calls.peek_mru() {
            Some((call, _)) => Some(*call),
            None => None,
        }
    }

    /// The calls before this one, in order; all of them where it is not there.
    pub(crate) fn before(&self, alloc: Global, call: CallId) -> Result<Vec<CallId>, NoMemory<()>>
        ensures { IfOk result (λ calls. calls.items ≡ before_call call self.now) }
    {
        let mut calls = Vec::new(alloc);
        let mut rest = self.calls.iter();
        while let Some((other, _)) = rest.next() {
            if *other == call {
                return Ok(calls);
            }
            calls.push(*other)?;
        }
        Ok(calls)
    }
}
