//! What lies under the lock: the desk, and the history that it represents.
ghost use Rattle.std.specs.Prelude.{◌≡◌, ◌++◌, ◌∷◌, [], IfOk, IfErr, IsTrue};
ghost use Rattle.sequential_signer.specs.Policy.{policy_of};
ghost use Rattle.desk_parts.specs.Tables.{setup_of};
ghost use Rattle.sign_desk.specs.DeskState.{Represents};
ghost use Rattle.sign_desk.specs.ReplyKinds.{is_reply_to};
ghost use Rattle.sequential_signer.specs.declared.event.Entry.{Entry};
ghost use mathlib.Core.List.{IsPrefix};
ghost use Rattle.concurrent_signer.specs.declared.refusal.Refusal.TheVariants.{Busy};
ghost use Rattle.concurrent_signer.specs.Calls.{IsBegun, IsUnbegun};

use crate::history::{History, SetUp};
use crate::refusal::Refusal;
use sequential_signer::{DeadlineRule, Entry, Event, Reply, SigningCredential};
use shared_history::Counter;
use sign_base::{CallId, Head, Timestamp};
use sign_desk::Desk;
use std::marker::Model;
use std::sync::Wait;
use std::time::Duration;

/// A desk, the history that it represents, and the number of the next call. Contracts see the history.
#[derive(Drop)]
pub(crate) struct LockedDesk<K: SigningCredential, D: DeadlineRule<Credential = K>, N: SetUp<D>> {
    desk: Desk<K, D>,
    history: History<K, D, N>,
    next: u64,
}

impl<K: SigningCredential, D: DeadlineRule<Credential = K>, N: SetUp<D>> Model
    for LockedDesk<K, D, N> {
    ghost use Rattle.std.specs.Prelude.{◌≡◌, List};
    ghost use Rattle.sequential_signer.specs.declared.event.Entry.{Entry};
    ghost use Rattle.sequential_signer.specs.Policy.{policy_of};
    ghost use Rattle.desk_parts.specs.Tables.{setup_of};
    ghost use Rattle.sign_desk.specs.DeskState.{Represents};

    ghost Value = { List (Entry K) };

    ghost view = { λ locked. locked.history };

    ghost invariant = { λ locked.
        Represents (policy_of K.valid K.valid_at D.deadline) locked.desk locked.history
        × (setup_of locked.desk ≡ N.setup) };
}

impl<K: SigningCredential, D: DeadlineRule<Credential = K>, N: SetUp<D>> LockedDesk<K, D, N> {
    pub(crate) fn new(desk: Desk<K, D>, history: History<K, D, N>) -> LockedDesk<K, D, N>
        requires fresh { Represents (policy_of K.valid K.valid_at D.deadline) desk history }
        requires setup { setup_of desk ≡ N.setup }
    {
        LockedDesk {
            desk,
            history,
            next: 0,
        }
    }

    /// One event. The caller has then seen the history to its entry.
    pub(crate) fn step<R: Wait>(
        &mut self,
        rt: &R,
        counter: &Counter<Entry<K>, N>,
        me: &mut History<K, D, N>,
        event: Event<K>,
    ) -> Entry<K>
        ensures event { result.event ≡ event }
        ensures kind { IsTrue (is_reply_to event result.reply) }
        ensures seen { IsPrefix me.old self.old }
        ensures added { self.new ≡ self.old ++ result ∷ [] }
        ensures me { me.new ≡ self.new }
    {
        let reply = self.desk.step(&event);
        let entry = Entry { event, reply };
        self.history = self.history.with(rt, counter, me, &entry);
        *me = self.history.again();
        entry
    }

    /// The same by an event that the desk keeps, beside an equal one for the entry: nothing is copied while
    /// others wait for the lock.
    pub(crate) fn step_owned<R: Wait>(
        &mut self,
        rt: &R,
        counter: &Counter<Entry<K>, N>,
        me: &mut History<K, D, N>,
        event: Event<K>,
        same: Event<K>,
    ) -> Entry<K>
        requires { same ≡ event }
        ensures event { result.event ≡ event }
        ensures kind { IsTrue (is_reply_to event result.reply) }
        ensures seen { IsPrefix me.old self.old }
        ensures added { self.new ≡ self.old ++ result ∷ [] }
        ensures me { me.new ≡ self.new }
    {
        let reply = self.desk.step_owned(event);
        let entry = Entry { event: same, reply };
        self.history = self.history.with(rt, counter, me, &entry);
        *me = self.history.again();
        entry
    }

    /// Begins a call under the handle, unless as many are live as there may be. `same` is a copy of the head,
    /// and the event with it is left in `spent`, to be dropped when the lock is free again.
    #[tactic(auto, using(crate::proofs::Adding::added_behind, crate::proofs::Adding::begun_behind))]
    pub(crate) fn begin<R: Wait>(
        &mut self,
        rt: &R,
        counter: &Counter<Entry<K>, N>,
        me: &mut History<K, D, N>,
        limit: usize,
        handle: u32,
        head: Head,
        same: Head,
        expires_in: Option<Duration>,
        spent: &mut Option<Event<K>>,
    ) -> Result<CallId, Refusal>
        requires { same ≡ head }
        ensures ok { IfOk result (λ call. (call.handle ≡ handle)
            × IsBegun limit call head expires_in me.old me.new) }
        ensures err { IfErr result (IsUnbegun limit handle head expires_in me.old me.new) }
    {
        let call = CallId {
            handle,
            number: self.next,
        };
        if self.desk.live() >= limit {
            return Err(self.refuse_busy(rt, counter, me, call));
        }
        self.next = self.next.wrapping_add(1);
        let event = Event::Begin {
            call,
            head,
            expires_in,
        };
        let same = Event::Begin {
            call,
            head: same,
            expires_in,
        };
        let Entry { event, reply } = self.step_owned(rt, counter, me, event, same);
        *spent = Some(event);
        match reply {
            Reply::Begun => Ok(call),
            Reply::OutOfMemory => Err(Refusal::OutOfMemory),
            Reply::NotNow => Err(Refusal::NotNow),
            _ => unreachable!(),
        }
    }

    /// Refuses the next call. The caller is shown the history by an event that changes nothing, since the
    /// call was not begun.
    fn refuse_busy<R: Wait>(
        &mut self,
        rt: &R,
        counter: &Counter<Entry<K>, N>,
        me: &mut History<K, D, N>,
        next: CallId,
    ) -> Refusal
        ensures busy { result ≡ Busy }
        ensures seen { IsPrefix me.old self.old }
        ensures last { (last : Entry K) × (me.new ≡ self.old ++ last ∷ []) }
    {
        let entry = self.step(rt, counter, me, Event::Cancel { call: next });
        drop(entry);
        Refusal::Busy
    }

    /// Whether a poll of the call now would leave it waiting.
    pub(crate) fn must_wait(&self, call: CallId, now: Timestamp) -> bool {
        let reply = self.desk.preview(&Event::Poll { call, now });
        matches!(reply, Reply::Pending)
    }
}
