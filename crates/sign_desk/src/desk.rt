//! The desk: events in, one reply each. It asks nobody and waits for nobody: what providers and
//! services answer comes in as events, and whoever drives the desk wakes the call that a reply names.
//!
//! Each cache has a lock, first come, first served. A call takes its place at its first poll, behind
//! all calls of its cache that were polled before, and nobody overtakes it. At its turn it holds the
//! lock and looks at the cache: a credential that is fresh and lasts to the call's deadline is handed
//! out, and else the call loads. What it finds is cached where it is handed out. The lock passes on in
//! the step that ends the hold, by a credential, a refusal or a cancel, and that step's reply names the
//! next. So one call of a cache loads at a time, and signing goes on beside later holds.
//!
//! Contracts see a desk as the record `DeskState`, and compare it with the transcript of all events and
//! replies by `Represents`: the desk replies what a signer would that serves one call at a time.
ghost use Rattle.std.specs.Prelude.{◌≡◌, ◌<◌, ◌++◌, ◌∷◌, [], ℕ, List, IsOk, IsSome, true};
ghost use Rattle.std.specs.Prelude.{not, OnOk, OnErr, IfOk, IfErr, length, IsTrue};
ghost use Rattle.std.specs.Prelude.{option_map, option_and_then, option_copied, slice_get};

use crate::state::State;
use desk_parts::{AddError, AddRefused, CallQueue, HandleRecord, RunError, Stage, Tables};
use sequential_signer::{DeadlineRule, Event, Loader, Reply, SigningCredential};
use sign_base::CallId;
use std::alloc::Global;
use std::marker::Model;

/// The core of the signer: what is set up, what each cache holds, and the live calls.
#[derive(Drop)]
pub struct Desk<K: SigningCredential, D: DeadlineRule<Credential = K>> {
    pub(crate) state: State<K, D>,
}

impl<K: SigningCredential, D: DeadlineRule<Credential = K>> Model for Desk<K, D> {
    ghost use Rattle.sign_desk.specs.DeskState.{DeskState};

    ghost Value = { DeskState K D };

    ghost use Rattle.sequential_signer.specs.Policy.{policy_for};
    ghost use Rattle.sign_desk.specs.IsDesk.{IsDesk};

    ghost view = { λ desk. desk.state };

    ghost invariant = { λ desk. IsDesk (policy_for K.SigningCredential D.DeadlineRule) desk.state };
}

impl<K: SigningCredential, D: DeadlineRule<Credential = K>> Desk<K, D> {
    ghost use Rattle.sign_desk.specs.DeskState.{Represents};
    ghost use Rattle.desk_parts.specs.declared.limits.TheConstants.{MOST_ROWS};
    ghost use Rattle.desk_parts.specs.Tables.{setup_of, was_begun, find_call};
    ghost use Rattle.desk_parts.specs.Adding.{late_refusal, handle_refusal, AddAnswer};
    ghost use Rattle.desk_parts.specs.Adding.{AddAnswerBack, with_rule, with_handle};
    ghost use Rattle.sign_desk.specs.DeskState.{with_cache};
    ghost use Rattle.sign_desk.specs.LiveCount.{LiveAfter};
    ghost use Rattle.sign_desk.specs.ReplyKinds.{is_reply_to};
    ghost use Rattle.sign_desk.specs.Cause.{cause_of, IsCaused};
    ghost use Rattle.desk_parts.specs.Memory.{ClonesAreFree};
    ghost use Rattle.sign_desk.specs.Memory.{RunsOutAtHeads, RunsOutAtBegins};
    ghost use Rattle.sign_desk.specs.Steps.{IsStep, AreSteps};
    ghost use Rattle.sign_desk.specs.StepPrecondition.{StepPrecondition, AreNumbered};
    ghost use Rattle.sign_desk.specs.Transition.{Transition};
    ghost use Rattle.sign_desk.specs.PairedEntries.{paired_entries};
    ghost use Rattle.desk_parts.specs.TablesView.{handle_view};
    ghost use Rattle.sequential_signer.specs.declared.event.Entry.{Entry};
    ghost use Rattle.sequential_signer.specs.Policy.{policy_for};
    ghost use Rattle.sequential_signer.specs.Transcript.{committed_entries};
    ghost use Rattle.sequential_signer.specs.Legal.{IsLegalEntry};

    /// A desk with no caches, rules, handles or calls. It represents the empty transcript.
    pub fn new(alloc: Global) -> Desk<K, D>
        ensures setup { setup_of result ≡ record { loaders = []; rules = []; handles = [] } }
        ensures fresh { Represents (policy_for K.SigningCredential D.DeadlineRule) result [] }
    {
        Desk {
            state: State {
                tables: Tables::new(alloc),
            },
        }
    }

    /// Adds an empty cache with this loader, and returns its number.
    ///
    /// Errors: `Late` where a call was begun, `OutOfMemory`. An error changes nothing.
    pub fn add_cache(&mut self, loader: Loader) -> Result<u32, AddError>
        requires { length self.old.loaders < MOST_ROWS }
        ensures answer { AddAnswer (late_refusal self.old) (length self.old.loaders) result }
        ensures added { OnOk result (self.new ≡ with_cache loader self.old) }
        ensures fresh { OnOk result (Represents (policy_for K.SigningCredential D.DeadlineRule) self.new []) }
        ensures unchanged { OnErr result (self.new ≡ self.old) }
    {
        let queue = CallQueue::new(self.state.tables.alloc());
        self.state.tables.add_cache(loader, queue)
    }

    /// Adds a rule, and returns its number.
    ///
    /// Errors: `Late` where a call was begun, `OutOfMemory`. An error changes nothing, and hands the
    /// rule back.
    pub fn add_rule(&mut self, rule: D) -> Result<u32, AddRefused<D>>
        requires { length self.old.rules < MOST_ROWS }
        ensures answer { AddAnswerBack (late_refusal self.old) (length self.old.rules) result }
        ensures added { OnOk result (self.new ≡ with_rule rule self.old) }
        ensures fresh { OnOk result (Represents (policy_for K.SigningCredential D.DeadlineRule) self.new []) }
        ensures unchanged { IfErr result (λ refused. (refused.back ≡ rule) × (self.new ≡ self.old)) }
    {
        self.state.tables.add_rule(rule)
    }

    /// Adds a handle on this cache with this rule, and returns its number.
    ///
    /// Errors, the first that holds: `Late` where a call was begun, `NoCache` and `NoRule` where the
    /// desk has no such number, `OutOfMemory`. An error changes nothing.
    pub fn add_handle(&mut self, cache: u32, rule: u32) -> Result<u32, AddError>
        requires { length self.old.handles < MOST_ROWS }
        ensures answer { AddAnswer (handle_refusal self.old cache rule) (length self.old.handles) result }
        ensures added { OnOk result (self.new ≡ with_handle cache rule self.old) }
        ensures fresh { OnOk result (Represents (policy_for K.SigningCredential D.DeadlineRule) self.new []) }
        ensures unchanged { OnErr result (self.new ≡ self.old) }
    {
        self.state.tables.add_handle(cache, rule)
    }

    /// Adds a rule, and a handle on this cache with it, and returns the handle's number.
    ///
    /// Errors: `Late`, `OutOfMemory`. An error changes nothing, and hands the rule back.
    pub fn add_rule_and_handle(&mut self, cache: u32, rule: D) -> Result<u32, AddRefused<D>>
        requires cache { cache < length self.old.loaders }
        requires rules { length self.old.rules < MOST_ROWS }
        requires handles { length self.old.handles < MOST_ROWS }
        ensures answer { AddAnswerBack (late_refusal self.old) (length self.old.handles) result }
        ensures added { OnOk result
            (self.new ≡ with_handle cache (length self.old.rules) (with_rule rule self.old)) }
        ensures fresh { OnOk result (Represents (policy_for K.SigningCredential D.DeadlineRule) self.new []) }
        ensures unchanged { IfErr result (λ refused. (refused.back ≡ rule) × (self.new ≡ self.old)) }
    {
        self.state.tables.add_rule_and_handle(cache, rule)
    }

    /// Adds an empty cache with this loader, and a handle on it with this rule, and returns the handle's
    /// number.
    ///
    /// Errors: `Late`, `OutOfMemory`. An error changes nothing.
    pub fn add_cache_and_handle(&mut self, loader: Loader, rule: u32) -> Result<u32, AddError>
        requires rule { rule < length self.old.rules }
        requires caches { length self.old.loaders < MOST_ROWS }
        requires handles { length self.old.handles < MOST_ROWS }
        ensures answer { AddAnswer (late_refusal self.old) (length self.old.handles) result }
        ensures added { OnOk result
            (self.new ≡ with_handle (length self.old.loaders) rule (with_cache loader self.old)) }
        ensures fresh { OnOk result (Represents (policy_for K.SigningCredential D.DeadlineRule) self.new []) }
        ensures unchanged { OnErr result (self.new ≡ self.old) }
    {
        let queue = CallQueue::new(self.state.tables.alloc());
        self.state.tables.add_cache_and_handle(loader, queue, rule)
    }

    /// The handle of this number, if there is one.
    pub fn handle_at(&self, handle: u32) -> Option<HandleRecord>
        ensures { option_map handle_view result ≡ slice_get self.now.handles handle }
    {
        self.state.tables.handle_at(handle)
    }

    /// The credential that the cache holds, if there is such a cache and it holds one.
    pub fn cached(&self, cache: u32) -> Option<&K>
        ensures { option_copied result ≡ option_and_then (λ held. held) (slice_get self.now.caches cache) }
    {
        self.state.tables.cached(cache)
    }

    /// The rule of the handle, if there is such a handle.
    pub fn rule_of(&self, handle: u32) -> Option<&D>
        ensures { option_copied result
            ≡ option_and_then (λ h. slice_get self.now.rules h.rule) (slice_get self.now.handles handle) }
    {
        self.state.tables.rule_of(handle)
    }

    /// The cache of the handle, if there is such a handle.
    pub fn cache_of(&self, handle: u32) -> Option<u32>
        ensures { result ≡ option_map (λ h. h.cache) (slice_get self.now.handles handle) }
    {
        let found = self.state.tables.handle_at(handle)?;
        Some(found.cache)
    }

    /// The number of caches.
    pub fn caches(&self) -> u32
        ensures { result ≡ length self.now.loaders }
    {
        self.state.tables.cache_count() as u32
    }

    /// The number of rules.
    pub fn rules(&self) -> u32
        ensures { result ≡ length self.now.rules }
    {
        self.state.tables.rule_count() as u32
    }

    /// The number of handles.
    pub fn handles(&self) -> u32
        ensures { result ≡ length self.now.handles }
    {
        self.state.tables.handle_count() as u32
    }

    /// The allocator of what the desk keeps.
    pub fn alloc(&self) -> Global {
        self.state.tables.alloc()
    }

    /// How far a call is that was begun and is not over; `None` where it is unknown or over. Found by the
    /// call's name, without a walk along others.
    pub fn stage_of(&self, call: CallId) -> Option<Stage>
        ensures stage { result ≡ option_map (λ live. live.stage) (find_call call self.now.calls) }
        ensures sound { StepPrecondition self.now }
    {
        let live = self.state.tables.record_of(call)?;
        Some(live.stage)
    }

    /// The number of calls that were begun and are not over.
    pub fn live(&self) -> usize
        ensures { result ≡ length self.now.calls }
    {
        self.state.tables.live_count()
    }

    /// Whether no call was begun. Such a desk represents the empty transcript.
    pub fn is_fresh(&self) -> bool
        ensures flag { result ≡ not self.now.started }
        ensures empty { result ≡ true
            → Represents (policy_for K.SigningCredential D.DeadlineRule) self.now [] }
        ensures begins { (entries : List (Entry K))
            → Represents (policy_for K.SigningCredential D.DeadlineRule) self.now entries
            → result ≡ not (was_begun (committed_entries entries)) }
    {
        !self.state.tables.has_begun_calls()
    }

    /// Tell the desk what happened to a call, and do what it replies:
    ///
    /// - `Ask { provider }`: ask that provider, and step `Provided` with its answer and the moment of it.
    /// - `Sign { credential, .. }`: give it to the service, and step `Signed` with what it answers.
    /// - `Done { head }`: send it. The call is over, as it is after `Refused` and `Cancelled`.
    /// - `Pending`: other calls are ahead, or an answer for the call is awaited. Poll it once its turn has
    ///   come: the reply to some later event names the call in `wake`.
    /// - `NotNow`: the event does not fit how far its call is, and was not taken.
    /// - `OutOfMemory`: nothing changed. Step the same event again, or cancel the call. It comes only at a
    ///   begin, at an accepted head, and where a credential is handed out whose clones take memory.
    ///
    /// Whatever a reply says, poll the call that it names in `wake`, or nobody behind it comes to its turn.
    /// `examples/one_call.script` has the events of one call, line by line.
    ///
    /// Whatever transcript the desk represents, it then represents that with this entry. What is done is
    /// exactly the event's `Transition`, so a driver knows where its calls are.
    pub fn step(&mut self, event: &Event<K>) -> Reply<K>
        ensures step { IsStep (policy_for K.SigningCredential D.DeadlineRule)
            event.now self.old result self.new }
        ensures transition { Transition (policy_for K.SigningCredential D.DeadlineRule)
            event.now self.old result self.new }
        ensures live { LiveAfter result (length self.old.calls) (length self.new.calls) }
        ensures memory { ClonesAreFree K.clones_freely → RunsOutAtHeads event.now result }
        ensures sound { StepPrecondition self.old }
        ensures numbered { AreNumbered self.old }
    {
        self.state.step(event)
    }

    /// The reply that a step would give now. Nothing changes.
    ///
    /// It answers `OutOfMemory` only where a step could.
    pub fn preview(&self, event: &Event<K>) -> Reply<K>
        ensures expected { (entries : List (Entry K))
            → Represents (policy_for K.SigningCredential D.DeadlineRule) self.now entries
            → IsLegalEntry (policy_for K.SigningCredential D.DeadlineRule) (setup_of self.now)
            (committed_entries entries) (record { event = event.now; reply = result }) }
        ensures causes { IsCaused
            (cause_of (policy_for K.SigningCredential D.DeadlineRule) self.now event.now) result }
        ensures kind { IsTrue (is_reply_to event.now result) }
        ensures memory { ClonesAreFree K.clones_freely → RunsOutAtHeads event.now result }
    {
        self.state.preview(event)
    }

    /// The same step, by an event that is handed over: its head is moved, so a begin takes the room of the
    /// call alone, and an accepted head none.
    ///
    /// `OutOfMemory` is answered only at a begin and, unless clones of a credential take no memory, where
    /// a credential is handed out. The event is gone then too; `step` leaves it with its caller.
    pub fn step_owned(&mut self, event: Event<K>) -> Reply<K>
        ensures step { IsStep (policy_for K.SigningCredential D.DeadlineRule) event self.old result self.new }
        ensures transition { Transition (policy_for K.SigningCredential D.DeadlineRule)
            event self.old result self.new }
        ensures live { LiveAfter result (length self.old.calls) (length self.new.calls) }
        ensures memory { ClonesAreFree K.clones_freely → RunsOutAtBegins event result }
        ensures sound { StepPrecondition self.old }
        ensures numbered { AreNumbered self.old }
    {
        self.state.step_owned(event)
    }

    /// Takes the events one after another, each by a `step`, and returns their replies.
    ///
    /// The replies' room is allocated before the first event: an error changes nothing. Of no events it is
    /// always Ok.
    pub fn run(&mut self, events: &[Event<K>]) -> Result<Vec<Reply<K>>, RunError>
        ensures replies { IfOk result (λ replies. length replies.items ≡ length events.now) }
        ensures steps { IfOk result (λ replies.
            AreSteps (policy_for K.SigningCredential D.DeadlineRule) (ClonesAreFree K.clones_freely)
            events.now replies.items self.old self.new) }
        ensures represents { IfOk result (λ replies. (entries : List (Entry K))
            → Represents (policy_for K.SigningCredential D.DeadlineRule) self.old entries
            → Represents (policy_for K.SigningCredential D.DeadlineRule) self.new
            (entries ++ paired_entries events.now replies.items)) }
        ensures setup { setup_of self.new ≡ setup_of self.old }
        ensures unchanged { OnErr result (self.new ≡ self.old) }
        ensures none { events.now ≡ [] → IsOk result }
    {
        if events.is_empty() {
            return Ok(Vec::new(self.state.tables.alloc()));
        }
        let mut replies = Vec::with_capacity(self.state.tables.alloc(), events.len())?;
        for event in events {
            let reply = self.step(event);
            replies.push_reserved(reply);
        }
        Ok(replies)
    }
}
