//! What is added to the tables of a desk, all of it before the first call is begun.
ghost use Rattle.std.specs.Prelude.{◌≡◌, ◌<◌, length, OnOk, OnErr, IfErr, vec_len, vec_capacity};
ghost use Rattle.desk_parts.specs.declared.limits.TheConstants.{NUMBERED_ROWS};

use crate::adding::{AddError, AddRefused};
use crate::tables::{HandleRecord, Tables};
use sequential_signer::{DeadlineRule, Loader, SigningCredential};
use std::alloc::AllocError;

/// Takes room for the row of one more cache, or changes nothing.
fn reserve_cache_row<K: Drop, Q: Drop>(
    loaders: &mut Vec<Loader>,
    caches: &mut Vec<Option<K>>,
    queues: &mut Vec<Q>,
) -> Result<(), AllocError>
    ensures loaders { loaders.new.items ≡ loaders.old.items }
    ensures caches { caches.new.items ≡ caches.old.items }
    ensures queues { queues.new.items ≡ queues.old.items }
    ensures room { OnOk result (vec_len loaders.new < vec_capacity loaders.new
        × (vec_len caches.new < vec_capacity caches.new × vec_len queues.new < vec_capacity queues.new)) }
{
    loaders.reserve(1)?;
    caches.reserve(1)?;
    queues.reserve(1)
}

/// Takes room for the row of one more handle, or changes nothing.
fn reserve_handle_row(
    handles: &mut Vec<HandleRecord>,
    last_numbers: &mut Vec<Option<u64>>,
) -> Result<(), AllocError>
    ensures handles { handles.new.items ≡ handles.old.items }
    ensures last_numbers { last_numbers.new.items ≡ last_numbers.old.items }
    ensures room { OnOk result (vec_len handles.new < vec_capacity handles.new
        × vec_len last_numbers.new < vec_capacity last_numbers.new) }
{
    handles.reserve(1)?;
    last_numbers.reserve(1)
}

impl<K: SigningCredential, D: DeadlineRule<Credential = K>, Q: Drop, H: Drop> Tables<K, D, Q, H> {
    ghost use Rattle.desk_parts.specs.Adding.{with_cache, with_rule, with_handle, late_refusal};
    ghost use Rattle.desk_parts.specs.Adding.{handle_refusal, AddAnswer, AddAnswerBack};

    /// Adds an empty cache with this queue, and returns its number.
    ///
    /// Errors: `Late` where a call was begun, `OutOfMemory`. An error changes nothing.
    pub fn add_cache(&mut self, loader: Loader, queue: Q) -> Result<u32, AddError>
        requires { length self.old.loaders < NUMBERED_ROWS }
        ensures answer { AddAnswer (late_refusal self.old) (length self.old.loaders) result }
        ensures added { OnOk result (self.new ≡ with_cache loader queue self.old) }
        ensures unchanged { OnErr result (self.new ≡ self.old) }
    {
        if self.has_begun_calls {
            return Err(AddError::Late);
        }
        let number = self.loaders.len() as u32;
        reserve_cache_row(&mut self.loaders, &mut self.caches, &mut self.queues)?;
        self.loaders.push_reserved(loader);
        self.caches.push_reserved(None);
        self.queues.push_reserved(queue);
        Ok(number)
    }

    /// Adds a rule, and returns its number.
    ///
    /// Errors: `Late` where a call was begun, `OutOfMemory`. An error changes nothing, and hands the
    /// rule back.
    pub fn add_rule(&mut self, rule: D) -> Result<u32, AddRefused<D>>
        requires { length self.old.rules < NUMBERED_ROWS }
        ensures answer { AddAnswerBack (late_refusal self.old) (length self.old.rules) result }
        ensures added { OnOk result (self.new ≡ with_rule rule self.old) }
        ensures unchanged { IfErr result (λ refused. (refused.back ≡ rule) × (self.new ≡ self.old)) }
    {
        if self.has_begun_calls {
            return Err(AddRefused {
                why: AddError::Late,
                back: rule,
            });
        }
        let number = self.rules.len() as u32;
        match self.rules.push(rule) {
            Ok(()) => Ok(number),
            Err(failed) => Err(AddRefused {
                why: AddError::OutOfMemory,
                back: failed.value,
            }),
        }
    }

    /// Adds a handle on this cache with this rule, and returns its number.
    ///
    /// Errors, the first that holds: `Late` where a call was begun, `NoCache` and `NoRule` where there
    /// is no such number, `OutOfMemory`. An error changes nothing.
    pub fn add_handle(&mut self, cache: u32, rule: u32) -> Result<u32, AddError>
        requires { length self.old.handles < NUMBERED_ROWS }
        ensures answer { AddAnswer (handle_refusal self.old cache rule) (length self.old.handles) result }
        ensures added { OnOk result (self.new ≡ with_handle cache rule self.old) }
        ensures unchanged { OnErr result (self.new ≡ self.old) }
    {
        if self.has_begun_calls {
            return Err(AddError::Late);
        }
        if cache as usize >= self.loaders.len() {
            return Err(AddError::NoCache(cache));
        }
        if rule as usize >= self.rules.len() {
            return Err(AddError::NoRule(rule));
        }
        let number = self.handles.len() as u32;
        reserve_handle_row(&mut self.handles, &mut self.last_numbers)?;
        self.handles.push_reserved(HandleRecord { cache, rule });
        self.last_numbers.push_reserved(None);
        Ok(number)
    }

    /// Adds a rule and a handle on this cache with it, and returns the handle's number.
    ///
    /// Errors: `Late` where a call was begun, `OutOfMemory`. An error changes nothing, and hands the
    /// rule back.
    pub fn add_rule_and_handle(&mut self, cache: u32, rule: D) -> Result<u32, AddRefused<D>>
        requires rules { length self.old.rules < NUMBERED_ROWS }
        requires handles { length self.old.handles < NUMBERED_ROWS }
        ensures answer { AddAnswerBack (late_refusal self.old) (length self.old.handles) result }
        ensures added { OnOk result
            (self.new ≡ with_handle cache (length self.old.rules) (with_rule rule self.old)) }
        ensures unchanged { IfErr result (λ refused. (refused.back ≡ rule) × (self.new ≡ self.old)) }
    {
        if self.has_begun_calls {
            return Err(AddRefused {
                why: AddError::Late,
                back: rule,
            });
        }
        if self.rules.reserve(1).is_err()
            | reserve_handle_row(&mut self.handles, &mut self.last_numbers).is_err()
        {
            return Err(AddRefused {
                why: AddError::OutOfMemory,
                back: rule,
            });
        }
        let place = self.rules.len() as u32;
        let number = self.handles.len() as u32;
        self.rules.push_reserved(rule);
        self.handles
            .push_reserved(HandleRecord { cache, rule: place });
        self.last_numbers.push_reserved(None);
        Ok(number)
    }

    /// Adds an empty cache with this queue and a handle on it with this rule, and returns the handle's
    /// number.
    ///
    /// Errors: `Late` where a call was begun, `OutOfMemory`. An error changes nothing.
    pub fn add_cache_and_handle(
        &mut self,
        loader: Loader,
        queue: Q,
        rule: u32,
    ) -> Result<u32, AddError>
        requires caches { length self.old.loaders < NUMBERED_ROWS }
        requires handles { length self.old.handles < NUMBERED_ROWS }
        ensures answer { AddAnswer (late_refusal self.old) (length self.old.handles) result }
        ensures added { OnOk result
            (self.new ≡ with_handle (length self.old.loaders) rule (with_cache loader queue self.old)) }
        ensures unchanged { OnErr result (self.new ≡ self.old) }
    {
        if self.has_begun_calls {
            return Err(AddError::Late);
        }
        let cache = self.loaders.len() as u32;
        let number = self.handles.len() as u32;
        reserve_handle_row(&mut self.handles, &mut self.last_numbers)?;
        reserve_cache_row(&mut self.loaders, &mut self.caches, &mut self.queues)?;
        self.loaders.push_reserved(loader);
        self.caches.push_reserved(None);
        self.queues.push_reserved(queue);
        self.handles.push_reserved(HandleRecord { cache, rule });
        self.last_numbers.push_reserved(None);
        Ok(number)
    }
}
