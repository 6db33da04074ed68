//! The signer: a call is one blocking function, which any thread calls.
ghost use Rattle.std.specs.Prelude.{◌≡◌, [], IfOk, IfErr, OnOk, OnErr, IsTrue};
ghost use Rattle.sequential_signer.specs.Policy.{policy_of};
ghost use Rattle.concurrent_signer.specs.Calls.{accepted_in_event};

use crate::history::{History, SetUp};
use crate::locked_desk::LockedDesk;
use crate::refusal::Refusal;
use crate::settings::Settings;
use sequential_signer::{DeadlineRule, Entry, Event, Reply, SigningCredential, Verdict};
use shared_history::{Counter, Opened};
use sign_base::{CallId, Head};
use sign_desk::Desk;
use signer_shared::{Gate, GateLoad};
use std::alloc::Global;
use std::marker::Model;
use std::sync::atomic::{AtomicBool, Ordering};
use std::sync::{Condvar, Mutex, Wait};
use std::thread;
use std::time::{Clock, Duration};

/// A desk behind one lock, which is held for one event at a time. Contracts see the settings.
#[derive(Drop)]
pub struct ConcurrentSigner<K, D, G, N>
where
    K: SigningCredential,
    D: DeadlineRule<Credential = K>,
    N: SetUp<D>,
{
    desk: Mutex<LockedDesk<K, D, N>>,
    turned: Condvar,
    stopped: AtomicBool,
    counter: Counter<Entry<K>, N>,
    settings: Settings<G>,
    alloc: Global,
}

impl<K, D, G, N> Model for ConcurrentSigner<K, D, G, N>
where
    K: SigningCredential,
    D: DeadlineRule<Credential = K>,
    N: SetUp<D>,
{
    ghost use Rattle.concurrent_signer.specs.declared.settings.Settings.{Settings};

    ghost Value = { Settings G };

    ghost view = { λ signer. signer.settings };
}

impl<K, D, G, N> ConcurrentSigner<K, D, G, N>
where
    K: SigningCredential,
    D: DeadlineRule<Credential = K>,
    N: SetUp<D>,
{
    ghost use Rattle.desk_parts.specs.Tables.{setup_of};
    ghost use Rattle.sign_desk.specs.DeskState.{Represents};

    /// A signer with a fresh desk, and a history that has seen nothing. It takes no memory.
    pub fn new(
        opened: Opened<Entry<K>>,
        desk: Desk<K, D>,
        settings: Settings<G>,
    ) -> (ConcurrentSigner<K, D, G, N>, History<K, D, N>)
        requires book { opened.seen.book ≡ N.book }
        requires fresh { Represents (policy_of K.valid K.valid_at D.deadline) desk [] }
        requires setup { setup_of desk ≡ N.setup }
        ensures settings { result.0 ≡ settings }
        ensures empty { result.1 ≡ [] }
    {
        let alloc = desk.alloc();
        let (counter, front) = opened.named::<N>();
        let history = History::new(front);
        let locked = LockedDesk::new(desk, history.again());
        let signer = ConcurrentSigner {
            desk: Mutex::new(locked),
            turned: Condvar::new(),
            stopped: AtomicBool::new(false),
            counter,
            settings,
            alloc,
        };
        (signer, history)
    }

    /// What it is run with.
    pub fn settings(&self) -> &Settings<G>
        ensures { result.now ≡ self.now }
    {
        &self.settings
    }

    /// Stops it for good: calls that wait for their turn, or between two questions to a provider, are
    /// cancelled, and further ones are refused at once, both as `Stopped`. A call that has its credential is
    /// signed. A gate that waits by itself is stopped by its owner, after this call.
    pub fn stop<R: Wait>(&self, rt: &R) {
        self.stopped.store(true, Ordering::SeqCst);
        // A sleeper that looked before this store sleeps by the time that the lock is free.
        drop(self.desk.lock(rt));
        self.turned.notify_all();
    }

    fn is_stopped(&self) -> bool {
        self.stopped.load(Ordering::SeqCst)
    }
}

impl<K, D, G, N> ConcurrentSigner<K, D, G, N>
where
    K: SigningCredential,
    D: DeadlineRule<Credential = K>,
    G: Gate<K>,
    N: SetUp<D>,
{
    ghost use Rattle.sequential_signer.specs.declared.event.Event.TheVariants.{Signed};
    ghost use Rattle.sequential_signer.specs.declared.event.Verdict.TheVariants.{Accepted, Failed};
    ghost use Rattle.sign_desk.specs.ReplyKinds.{is_reply_to};
    ghost use Rattle.signer_shared.specs.Gates.{IfAnswered};
    ghost use Rattle.concurrent_signer.specs.Entries.{IsAdded};
    ghost use Rattle.concurrent_signer.specs.Calls.{IsBegun, IsUnbegun, IsAsked, IsFrom, IsReplied};
    ghost use Rattle.concurrent_signer.specs.Calls.{IsHandedOut};
    ghost use Rattle.concurrent_signer.specs.Calls.{IsAccepted, IsCancelled, IsEnded, IsSigned, IsCauseOf};

    /// Signs a head under the handle. The thread is blocked until its call is over: it sleeps until the call
    /// comes to its turn, and between two questions to a provider that has not answered. Other threads' calls
    /// go on meanwhile.
    ///
    /// Ok: the head has the URI and the headers that its service accepted for the credential that the call
    /// was handed out. Err: the head is as it was, and a call that was begun is over.
    #[tactic(auto, using(crate::proofs::Adding::ends_behind))]
    pub fn sign<R: Wait + Clock>(
        &self,
        rt: &R,
        me: &mut History<K, D, N>,
        handle: u32,
        head: &mut Head,
        expires_in: Option<Duration>,
    ) -> Result<(), Refusal>
        ensures ok { OnOk result (IsSigned (G.meaning self.now.gate) self.now.limit handle head.old expires_in
            head.new me.old me.new) }
        ensures err { IfErr result (IsCauseOf (G.meaning self.now.gate) self.now.limit handle head.old
            expires_in me.old me.new) }
        ensures unchanged { OnErr result (head.new ≡ head.old) }
    {
        let call = self.begin(rt, me, handle, head, expires_in)?;
        let credential = self.credential(rt, me, call, head)?;
        self.sign_with(rt, me, call, &credential, head)
    }

    /// Begins a call with a copy of the head. What the event leaves is dropped when the lock is free again.
    fn begin<R: Wait>(
        &self,
        rt: &R,
        me: &mut History<K, D, N>,
        handle: u32,
        head: &Head,
        expires_in: Option<Duration>,
    ) -> Result<CallId, Refusal>
        ensures ok { IfOk result (λ call. (call.handle ≡ handle)
            × IsBegun self.now.limit call head.now expires_in me.old me.new) }
        ensures err { IfErr result (IsUnbegun self.now.limit handle head.now expires_in me.old me.new) }
    {
        if self.is_stopped() {
            return Err(Refusal::Stopped);
        }
        let Ok(copy) = head.try_clone(self.alloc) else {
            return Err(Refusal::OutOfMemory);
        };
        let Ok(same) = head.try_clone(self.alloc) else {
            drop(copy);
            return Err(Refusal::OutOfMemory);
        };
        let mut spent = None;
        let begun = self.begin_locked(rt, me, handle, copy, same, expires_in, &mut spent);
        drop(spent);
        begun
    }

    fn begin_locked<R: Wait>(
        &self,
        rt: &R,
        me: &mut History<K, D, N>,
        handle: u32,
        head: Head,
        same: Head,
        expires_in: Option<Duration>,
        spent: &mut Option<Event<K>>,
    ) -> Result<CallId, Refusal>
        requires { same ≡ head }
        ensures ok { IfOk result (λ call. (call.handle ≡ handle)
            × IsBegun self.now.limit call head expires_in me.old me.new) }
        ensures err { IfErr result (IsUnbegun self.now.limit handle head expires_in me.old me.new) }
    {
        let limit = self.settings.limit;
        self.desk.lock(rt).begin(
            rt,
            &self.counter,
            me,
            limit,
            handle,
            head,
            same,
            expires_in,
            spent,
        )
    }

    /// Goes on with a call until it has a credential.
    #[tactic(auto, using(crate::proofs::Adding::ends_behind))]
    fn credential<R: Wait + Clock>(
        &self,
        rt: &R,
        me: &mut History<K, D, N>,
        call: CallId,
        head: &Head,
    ) -> Result<K, Refusal>
        ensures ok { IfOk result (λ credential.
            IsHandedOut (G.meaning self.now.gate) call head.now credential me.old me.new) }
        ensures err { IfErr result (IsEnded (G.meaning self.now.gate) call head.now me.old me.new) }
    {
        let mut reply = self.poll(rt, me, call, head);
        for _ in rt.forever() {
            reply = match reply {
                Reply::Pending => self.poll_in_turn(rt, me, call, head)?,
                Reply::Ask { provider } => self.load(rt, me, call, head, provider)?,
                Reply::Sign { credential, .. } => return Ok(credential),
                Reply::Refused { why, .. } => return Err(Refusal::Refused(why)),
                Reply::OutOfMemory => return Err(self.give_up(rt, me, call, Refusal::OutOfMemory)),
                // None of these comes, as `sign` alone makes events of its call.
                Reply::NotNow => return Err(self.give_up(rt, me, call, Refusal::NotNow)),
                Reply::Begun => return Err(self.give_up(rt, me, call, Refusal::NotNow)),
                Reply::Done { .. } => return Err(self.give_up(rt, me, call, Refusal::NotNow)),
                Reply::Cancelled { .. } => return Err(self.give_up(rt, me, call, Refusal::NotNow)),
            };
        }
        unreachable!()
    }

    /// A poll at the moment that the gate's clock shows.
    fn poll<R: Wait>(
        &self,
        rt: &R,
        me: &mut History<K, D, N>,
        call: CallId,
        head: &Head,
    ) -> Reply<K>
        ensures { IsReplied (G.meaning self.now.gate) call head.now me.old result me.new }
    {
        let now = self.settings.gate.now();
        self.report(rt, me, call, head, Event::Poll { call, now })
    }

    /// Sleeps until the call comes to its turn, and polls it. A call that does not in time is cancelled.
    fn poll_in_turn<R: Wait + Clock>(
        &self,
        rt: &R,
        me: &mut History<K, D, N>,
        call: CallId,
        head: &Head,
    ) -> Result<Reply<K>, Refusal>
        ensures ok { IfOk result (λ reply.
            IsReplied (G.meaning self.now.gate) call head.now me.old reply me.new) }
        ensures err { IfErr result (IsEnded (G.meaning self.now.gate) call head.now me.old me.new) }
    {
        if !self.comes_to_turn(rt, call) {
            return Err(self.end_waiting(rt, me, call, head));
        }
        Ok(self.poll(rt, me, call, head))
    }

    /// Sleeps until a poll of the call would go on, and whether it would in time and before a stop. Each step
    /// that passes a turn on wakes the sleepers.
    fn comes_to_turn<R: Wait + Clock>(&self, rt: &R, call: CallId) -> bool {
        let now = self.settings.gate.now();
        let longest = self.settings.patience.turn;
        let (desk, waited) = self.turned.wait_timeout_while(
            rt,
            self.desk.lock(rt),
            longest,
            |desk| !self.is_stopped() && desk.must_wait(call, now),
        );
        drop(desk);
        !waited.timed_out() && !self.is_stopped()
    }

    /// Waits for the provider's answer, and hands it in. A call whose provider does not answer in time is
    /// cancelled.
    fn load<R: Wait + Clock>(
        &self,
        rt: &R,
        me: &mut History<K, D, N>,
        call: CallId,
        head: &Head,
        provider: u32,
    ) -> Result<Reply<K>, Refusal>
        requires { IsAsked call provider me.old }
        ensures ok { IfOk result (λ reply.
            IsReplied (G.meaning self.now.gate) call head.now me.old reply me.new) }
        ensures err { IfErr result (IsEnded (G.meaning self.now.gate) call head.now me.old me.new) }
    {
        match self.answer(rt, call, provider) {
            GateLoad::Answer(answer) => {
                let now = self.settings.gate.now();
                let event = Event::Provided { call, now, answer };
                Ok(self.report(rt, me, call, head, event))
            }
            GateLoad::NotYet => Err(self.end_waiting(rt, me, call, head)),
            GateLoad::OutOfMemory => Err(self.give_up(rt, me, call, Refusal::OutOfMemory)),
        }
    }

    /// The provider's answer. It is asked so often, with a sleep between.
    fn answer<R: Clock>(&self, rt: &R, call: CallId, provider: u32) -> GateLoad<K>
        ensures { IfAnswered result ((G.meaning self.now.gate).gives call provider) }
    {
        let patience = self.settings.patience;
        for turn in 0..patience.asks {
            if self.is_stopped() {
                return GateLoad::NotYet;
            }
            match self.settings.gate.load(call, provider, turn) {
                GateLoad::NotYet => thread::sleep(rt, patience.pause),
                answered => return answered,
            }
        }
        GateLoad::NotYet
    }

    /// Has the service sign with this credential, and puts what it accepted into the head.
    fn sign_with<R: Wait>(
        &self,
        rt: &R,
        me: &mut History<K, D, N>,
        call: CallId,
        credential: &K,
        head: &mut Head,
    ) -> Result<(), Refusal>
        ensures ok { OnOk result (IsAccepted (G.meaning self.now.gate) call head.old credential.now head.new
            me.old me.new) }
        ensures err { IfErr result (IsEnded (G.meaning self.now.gate) call head.old me.old me.new) }
        ensures unchanged { OnErr result (head.new ≡ head.old) }
    {
        match self.settings.gate.verdict(call, credential, head) {
            Ok(Verdict::Accepted(candidate)) => self.accept(
                rt, me, call, credential, candidate, head,
            ),
            Ok(Verdict::Failed(e)) => Err(self.fail(rt, me, call, credential, head, e)),
            Err(_) => Err(self.give_up(rt, me, call, Refusal::OutOfMemory)),
        }
    }

    /// The service accepted this head for the credential.
    fn accept<R: Wait>(
        &self,
        rt: &R,
        me: &mut History<K, D, N>,
        call: CallId,
        credential: &K,
        candidate: Head,
        head: &mut Head,
    ) -> Result<(), Refusal>
        requires judged { (G.meaning self.now.gate).judges call credential.now head.old (Accepted candidate) }
        ensures ok { OnOk result (IsAccepted (G.meaning self.now.gate) call head.old credential.now head.new
            me.old me.new) }
        ensures err { IfErr result (IsEnded (G.meaning self.now.gate) call head.old me.old me.new) }
        ensures unchanged { OnErr result (head.new ≡ head.old) }
    {
        let Ok(same) = candidate.try_clone(self.alloc) else {
            drop(candidate);
            return Err(self.give_up(rt, me, call, Refusal::OutOfMemory));
        };
        let Entry { event, reply } = self.step_accepted(rt, me, call, candidate, same);
        match reply {
            Reply::Done { .. } => {
                if let Some(accepted) = accepted_in(event) {
                    let (uri, headers) = accepted.into_target();
                    head.uri = uri;
                    head.headers = headers;
                }
                Ok(())
            }
            Reply::Refused { why, .. } => Err(Refusal::Refused(why)),
            Reply::NotNow => Err(self.give_up(rt, me, call, Refusal::NotNow)),
            _ => Err(self.give_up(rt, me, call, Refusal::OutOfMemory)),
        }
    }

    /// The service failed.
    fn fail<R: Wait>(
        &self,
        rt: &R,
        me: &mut History<K, D, N>,
        call: CallId,
        credential: &K,
        head: &Head,
        error: u64,
    ) -> Refusal
        requires { (G.meaning self.now.gate).judges call credential.now head.now (Failed error) }
        ensures { IsEnded (G.meaning self.now.gate) call head.now me.old me.new result }
    {
        let _ = credential;
        let answer = Verdict::Failed(error);
        match self.report(rt, me, call, head, Event::Signed { call, answer }) {
            Reply::Refused { why, .. } => Refusal::Refused(why),
            Reply::NotNow | Reply::Begun | Reply::Done { .. } | Reply::Cancelled { .. } => {
                self.give_up(rt, me, call, Refusal::NotNow)
            }
            _ => self.give_up(rt, me, call, Refusal::OutOfMemory),
        }
    }

    /// Cancels a call whose wait is over, or was ended by a stop.
    fn end_waiting<R: Wait>(
        &self,
        rt: &R,
        me: &mut History<K, D, N>,
        call: CallId,
        head: &Head,
    ) -> Refusal
        ensures { IsEnded (G.meaning self.now.gate) call head.now me.old me.new result }
    {
        let _ = head;
        if self.is_stopped() {
            return self.give_up(rt, me, call, Refusal::Stopped);
        }
        self.give_up(rt, me, call, Refusal::GivenUp)
    }

    /// Cancels a call that goes on no further, and says why.
    fn give_up<R: Wait>(
        &self,
        rt: &R,
        me: &mut History<K, D, N>,
        call: CallId,
        why: Refusal,
    ) -> Refusal
        ensures why { result ≡ why }
        ensures cancelled { IsCancelled call me.old me.new }
    {
        let entry = self.step(rt, me, Event::Cancel { call });
        drop(entry);
        why
    }

    /// Makes an event whose answer and moment are the gate's.
    fn report<R: Wait>(
        &self,
        rt: &R,
        me: &mut History<K, D, N>,
        call: CallId,
        head: &Head,
        event: Event<K>,
    ) -> Reply<K>
        requires { IsFrom (G.meaning self.now.gate) call head.now me.old event }
        ensures { IsReplied (G.meaning self.now.gate) call head.now me.old result me.new }
    {
        let _ = call;
        let _ = head;
        let Entry { reply, .. } = self.step(rt, me, event);
        reply
    }

    /// Makes one event, and wakes the sleepers where it passes a turn on.
    fn step<R: Wait>(&self, rt: &R, me: &mut History<K, D, N>, event: Event<K>) -> Entry<K>
        ensures event { result.event ≡ event }
        ensures kind { IsTrue (is_reply_to event result.reply) }
        ensures added { IsAdded me.old result me.new }
    {
        let entry = self.step_locked(rt, me, event);
        if names_next(&entry.reply) {
            self.turned.notify_all();
        }
        entry
    }

    /// The event of a head that the service accepted, which the desk keeps. `same` is a copy for the entry.
    #[tactic(auto, using(crate::proofs::Adding::added_behind))]
    fn step_accepted<R: Wait>(
        &self,
        rt: &R,
        me: &mut History<K, D, N>,
        call: CallId,
        head: Head,
        same: Head,
    ) -> Entry<K>
        requires { same ≡ head }
        ensures event { result.event ≡ Signed call (Accepted head) }
        ensures kind { IsTrue (is_reply_to result.event result.reply) }
        ensures added { IsAdded me.old result me.new }
    {
        let answer = Verdict::Accepted(head);
        let event = Event::Signed { call, answer };
        let answer = Verdict::Accepted(same);
        let same = Event::Signed { call, answer };
        let entry = self
            .desk
            .lock(rt)
            .step_owned(rt, &self.counter, me, event, same);
        if names_next(&entry.reply) {
            self.turned.notify_all();
        }
        entry
    }

    #[tactic(auto, using(crate::proofs::Adding::added_behind))]
    fn step_locked<R: Wait>(&self, rt: &R, me: &mut History<K, D, N>, event: Event<K>) -> Entry<K>
        ensures event { result.event ≡ event }
        ensures kind { IsTrue (is_reply_to event result.reply) }
        ensures added { IsAdded me.old result me.new }
    {
        self.desk.lock(rt).step(rt, &self.counter, me, event)
    }
}

/// Whether the reply names a call that has its turn by it.
fn names_next<K>(reply: &Reply<K>) -> bool {
    match reply {
        Reply::Sign { wake, .. } | Reply::Refused { wake, .. } | Reply::Cancelled { wake } => {
            wake.is_some()
        }
        _ => false,
    }
}

/// The head that a service accepted.
fn accepted_in<K: Drop>(event: Event<K>) -> Option<Head>
    ensures { result ≡ accepted_in_event event }
{
    match event {
        Event::Signed {
            answer: Verdict::Accepted(candidate),
            ..
        } => Some(candidate),
        _ => None,
    }
}
