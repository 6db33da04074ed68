//! The desk of a granter: events in, one reply each. It asks nobody and waits for nobody: what providers and
//! granters answer comes in as events.
//!
//! No lock stands round a cache. A call looks at its cache at its first poll: a source that is fresh and
//! lasts to the call's deadline is handed to the granter, and else the call loads, also where another call of
//! the cache loads already. What it finds is cached where it is handed to the granter, in place of what the
//! cache held. What the granter makes goes to the call and into no cache.
//!
//! Contracts see a desk as the record `GrantState`, and compare it with the transcript of all events and
//! replies by `GrantRepresents`: the desk replies what the definitions expect of the transcript alone.
ghost use Rattle.std.specs.Prelude.{◌≡◌, ◌<◌, ◌++◌, ◌∷◌, [], List, IsOk, true, not, OnOk, OnErr, IfOk};
ghost use Rattle.std.specs.Prelude.{IfErr, length, option_map, option_and_then, option_copied, slice_get};

use crate::state::State;
use desk_parts::{AddError, AddRefused, HandleRecord, RunError, Tables};
use sequential_signer::{DeadlineRule, GrantEvent, GrantReply, Loader, SigningCredential};
use std::alloc::Global;
use std::marker::Model;

/// The core of a granter: what is set up, what each cache holds, and the live calls.
#[derive(Drop)]
pub struct GrantDesk<K: SigningCredential, D: DeadlineRule<Credential = K>> {
    state: State<K, D>,
}

impl<K: SigningCredential, D: DeadlineRule<Credential = K>> Model for GrantDesk<K, D> {
    ghost use Rattle.grant_desk.specs.GrantDeskState.{GrantState};

    ghost Value = { GrantState K D };

    ghost use Rattle.sequential_signer.specs.Policy.{policy_for};
    ghost use Rattle.grant_desk.specs.IsGrantDesk.{IsGrantDesk};

    ghost view = { λ desk. desk.state };

    ghost invariant = { λ desk. IsGrantDesk (policy_for K.SigningCredential D.DeadlineRule) desk.state };
}

impl<K: SigningCredential, D: DeadlineRule<Credential = K>> GrantDesk<K, D> {
    ghost use Rattle.sequential_signer.specs.Policy.{policy_for};
    ghost use Rattle.sequential_signer.specs.GrantLegal.{IsLegalGrantEntry};
    ghost use Rattle.sequential_signer.specs.GrantTranscript.{as_signer, committed_grants};
    ghost use Rattle.sequential_signer.specs.declared.grant_event.GrantEntry.{GrantEntry};
    ghost use Rattle.desk_parts.specs.Adding.{late_refusal, handle_refusal, AddAnswer};
    ghost use Rattle.desk_parts.specs.Adding.{AddAnswerBack, with_rule, with_handle};
    ghost use Rattle.desk_parts.specs.Memory.{ClonesAreFree};
    ghost use Rattle.desk_parts.specs.declared.limits.TheConstants.{MOST_ROWS};
    ghost use Rattle.desk_parts.specs.Tables.{setup_of, was_begun};
    ghost use Rattle.desk_parts.specs.TablesView.{handle_view};
    ghost use Rattle.grant_desk.specs.GrantDeskState.{GrantRepresents, with_source};
    ghost use Rattle.grant_desk.specs.GrantAction.{GrantTransition};
    ghost use Rattle.grant_desk.specs.GrantPlaces.{GrantPrecondition};
    ghost use Rattle.grant_desk.specs.GrantSteps.{IsGrantStep, AreGrantSteps, paired_grants, RunsOutAtBegins};

    /// A desk with no caches, rules, handles or calls. It represents the empty transcript.
    pub fn new(alloc: Global) -> GrantDesk<K, D>
        ensures setup { setup_of result ≡ record { loaders = []; rules = []; handles = [] } }
        ensures fresh { GrantRepresents (policy_for K.SigningCredential D.DeadlineRule) result [] }
    {
        GrantDesk {
            state: State {
                tables: Tables::new(alloc),
            },
        }
    }

    /// Adds an empty cache with this loader, and returns its number.
    ///
    /// Errors: `Late` where a call was begun, `OutOfMemory`. An error changes nothing.
    pub fn add_cache(&mut self, loader: Loader) -> Result<u32, AddError>
        requires { length self.old.loaders < MOST_ROWS }
        ensures answer { AddAnswer (late_refusal self.old) (length self.old.loaders) result }
        ensures added { OnOk result (self.new ≡ with_source loader self.old) }
        ensures fresh { OnOk result
            (GrantRepresents (policy_for K.SigningCredential D.DeadlineRule) self.new []) }
        ensures unchanged { OnErr result (self.new ≡ self.old) }
    {
        self.state.tables.add_cache(loader, ())
    }

    /// Adds a rule, and returns its number.
    ///
    /// Errors: `Late` where a call was begun, `OutOfMemory`. An error changes nothing, and hands the
    /// rule back.
    pub fn add_rule(&mut self, rule: D) -> Result<u32, AddRefused<D>>
        requires { length self.old.rules < MOST_ROWS }
        ensures answer { AddAnswerBack (late_refusal self.old) (length self.old.rules) result }
        ensures added { OnOk result (self.new ≡ with_rule rule self.old) }
        ensures fresh { OnOk result
            (GrantRepresents (policy_for K.SigningCredential D.DeadlineRule) self.new []) }
        ensures unchanged { IfErr result (λ refused. (refused.back ≡ rule) × (self.new ≡ self.old)) }
    {
        self.state.tables.add_rule(rule)
    }

    /// Adds a handle on this cache with this rule, and returns its number.
    ///
    /// Errors, the first that holds: `Late` where a call was begun, `NoCache` and `NoRule` where the
    /// desk has no such number, `OutOfMemory`. An error changes nothing.
    pub fn add_handle(&mut self, cache: u32, rule: u32) -> Result<u32, AddError>
        requires { length self.old.handles < MOST_ROWS }
        ensures answer { AddAnswer (handle_refusal self.old cache rule) (length self.old.handles) result }
        ensures added { OnOk result (self.new ≡ with_handle cache rule self.old) }
        ensures fresh { OnOk result
            (GrantRepresents (policy_for K.SigningCredential D.DeadlineRule) self.new []) }
        ensures unchanged { OnErr result (self.new ≡ self.old) }
    {
        self.state.tables.add_handle(cache, rule)
    }

    /// Adds a rule, and a handle on this cache with it, and returns the handle's number.
    ///
    /// Errors: `Late`, `OutOfMemory`. An error changes nothing, and hands the rule back.
    pub fn add_rule_and_handle(&mut self, cache: u32, rule: D) -> Result<u32, AddRefused<D>>
        requires cache { cache < length self.old.loaders }
        requires rules { length self.old.rules < MOST_ROWS }
        requires handles { length self.old.handles < MOST_ROWS }
        ensures answer { AddAnswerBack (late_refusal self.old) (length self.old.handles) result }
        ensures added { OnOk result
            (self.new ≡ with_handle cache (length self.old.rules) (with_rule rule self.old)) }
        ensures fresh { OnOk result
            (GrantRepresents (policy_for K.SigningCredential D.DeadlineRule) self.new []) }
        ensures unchanged { IfErr result (λ refused. (refused.back ≡ rule) × (self.new ≡ self.old)) }
    {
        self.state.tables.add_rule_and_handle(cache, rule)
    }

    /// Adds an empty cache with this loader, and a handle on it with this rule, and returns the handle's
    /// number.
    ///
    /// Errors: `Late`, `OutOfMemory`. An error changes nothing.
    pub fn add_cache_and_handle(&mut self, loader: Loader, rule: u32) -> Result<u32, AddError>
        requires rule { rule < length self.old.rules }
        requires caches { length self.old.loaders < MOST_ROWS }
        requires handles { length self.old.handles < MOST_ROWS }
        ensures answer { AddAnswer (late_refusal self.old) (length self.old.handles) result }
        ensures added { OnOk result
            (self.new ≡ with_handle (length self.old.loaders) rule (with_source loader self.old)) }
        ensures fresh { OnOk result
            (GrantRepresents (policy_for K.SigningCredential D.DeadlineRule) self.new []) }
        ensures unchanged { OnErr result (self.new ≡ self.old) }
    {
        self.state.tables.add_cache_and_handle(loader, (), rule)
    }

    /// The handle of this number, if there is one.
    pub fn handle_at(&self, handle: u32) -> Option<HandleRecord>
        ensures { option_map handle_view result ≡ slice_get self.now.handles handle }
    {
        self.state.tables.handle_at(handle)
    }

    /// The credential that the cache holds, if there is such a cache and it holds one.
    pub fn cached(&self, cache: u32) -> Option<&K>
        ensures { option_copied result ≡ option_and_then (λ held. held) (slice_get self.now.caches cache) }
    {
        self.state.tables.cached(cache)
    }

    /// The rule of the handle, if there is such a handle.
    pub fn rule_of(&self, handle: u32) -> Option<&D>
        ensures { option_copied result
            ≡ option_and_then (λ h. slice_get self.now.rules h.rule) (slice_get self.now.handles handle) }
    {
        self.state.tables.rule_of(handle)
    }

    /// The cache of the handle, if there is such a handle.
    pub fn cache_of(&self, handle: u32) -> Option<u32>
        ensures { result ≡ option_map (λ h. h.cache) (slice_get self.now.handles handle) }
    {
        let found = self.state.tables.handle_at(handle)?;
        Some(found.cache)
    }

    /// The number of caches.
    pub fn caches(&self) -> u32
        ensures { result ≡ length self.now.loaders }
    {
        self.state.tables.cache_count() as u32
    }

    /// The number of rules.
    pub fn rules(&self) -> u32
        ensures { result ≡ length self.now.rules }
    {
        self.state.tables.rule_count() as u32
    }

    /// The number of handles.
    pub fn handles(&self) -> u32
        ensures { result ≡ length self.now.handles }
    {
        self.state.tables.handle_count() as u32
    }

    /// The number of calls that were begun and are not over.
    pub fn live(&self) -> usize
        ensures { result ≡ length self.now.calls }
    {
        self.state.tables.live_count()
    }

    /// Whether no call was begun. Such a desk represents the empty transcript.
    pub fn is_fresh(&self) -> bool
        ensures flag { result ≡ not self.now.started }
        ensures empty { result ≡ true
            → GrantRepresents (policy_for K.SigningCredential D.DeadlineRule) self.now [] }
        ensures begins { (entries : List (GrantEntry K))
            → GrantRepresents (policy_for K.SigningCredential D.DeadlineRule) self.now entries
            → result ≡ not (was_begun (as_signer (committed_grants entries))) }
    {
        !self.state.tables.has_begun_calls()
    }

    /// Tell the desk what happened to a call, and do what it replies:
    ///
    /// - `Ask { provider }`: ask that provider, and step `Provided` with its answer and the moment of it.
    /// - `Grant { source }`: give it to the granter, and step `Granted` with its answer and the moment of it.
    /// - `Given { credential }`: it is the call's. The call is over, as after `Refused` and `Cancelled`.
    /// - `Pending`: the answer for the call is still awaited.
    /// - `NotNow`: the event does not fit how far its call is, and was not taken.
    /// - `OutOfMemory`: nothing changed. Step the same event again, or cancel the call. It comes only at a
    ///   begin, and where a source or a credential is handed out whose clones take memory.
    ///
    /// Whatever transcript the desk represents, it then represents that with this entry. What is done is
    /// exactly the event's `GrantTransition`, so a driver knows where its calls are.
    pub fn step(&mut self, event: &GrantEvent<K>) -> GrantReply<K>
        ensures step { IsGrantStep (policy_for K.SigningCredential D.DeadlineRule)
            event.now self.old result self.new }
        ensures transition { GrantTransition (policy_for K.SigningCredential D.DeadlineRule)
            event.now self.old result self.new }
        ensures memory { ClonesAreFree K.clones_freely → RunsOutAtBegins event.now result }
        ensures sound { GrantPrecondition self.old }
    {
        self.state.step(event)
    }

    /// Takes the events one after another, each by a `step`, and returns their replies.
    ///
    /// The replies' room is allocated before the first event: an error changes nothing. Of no events it is
    /// always Ok.
    pub fn run(&mut self, events: &[GrantEvent<K>]) -> Result<Vec<GrantReply<K>>, RunError>
        ensures replies { IfOk result (λ replies. length replies.items ≡ length events.now) }
        ensures steps { IfOk result (λ replies.
            AreGrantSteps (policy_for K.SigningCredential D.DeadlineRule) (ClonesAreFree K.clones_freely)
            events.now replies.items self.old self.new) }
        ensures represents { IfOk result (λ replies. (entries : List (GrantEntry K))
            → GrantRepresents (policy_for K.SigningCredential D.DeadlineRule) self.old entries
            → GrantRepresents (policy_for K.SigningCredential D.DeadlineRule) self.new
            (entries ++ paired_grants events.now replies.items)) }
        ensures setup { setup_of self.new ≡ setup_of self.old }
        ensures unchanged { OnErr result (self.new ≡ self.old) }
        ensures none { events.now ≡ [] → IsOk result }
    {
        if events.is_empty() {
            return Ok(Vec::new(self.state.tables.alloc()));
        }
        let mut replies = Vec::with_capacity(self.state.tables.alloc(), events.len())?;
        for event in events {
            let reply = self.step(event);
            replies.push_reserved(reply);
        }
        Ok(replies)
    }
}
