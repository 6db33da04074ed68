//! The gate: who answers the calls of a signer that threads share.
ghost use Rattle.std.specs.Prelude.{◌≡◌, ◌≢◌, IfOk};
ghost use Rattle.credentials.specs.Operation.{IsCandidate};
ghost use Rattle.desk_driver.specs.LoadAnswer.{IsLoadKept, provider_meaning};
ghost use Rattle.signer_shared.specs.Gates.{IfAnswered};
ghost use Rattle.signer_shared.specs.declared.gate.GateLoad.TheVariants.{NotYet};
ghost use Rattle.object_gate.specs.Answers.{IsAnswerOf, IsVerdictOf, object_meaning, operation_with};
ghost use Rattle.object_gate.specs.Polls.{IsWorkAnswer, gate_load};

use crate::cause::{UNANSWERED, number_of};
use crate::gate_clock::GateClock;
use crate::objects::{GateObjects, Waits};
use crate::work_answer::WorkAnswer;
use credentials::{Polled, ProvideCredential, SignRequest};
use desk_driver::{LoadAnswer, LoadState, poll_provider, provider_at};
use sequential_signer::{Answer, SigningCredential, Verdict};
use sign_base::{CallId, Error, Head, NoMemory, Timestamp};
use signer_shared::{Gate, GateLoad};
use std::alloc::Global;
use std::marker::Model;
use std::sync::atomic::{AtomicBool, Ordering};
use std::thread;
use std::time::Clock;

/// A gate that asks these objects, and waits for them by the clock of `rt`. Contracts see the objects.
#[derive(Drop)]
pub struct ObjectGate<'a, P, S, X, R>
where
    P: ProvideCredential,
{
    rt: &'a R,
    alloc: Global,
    objects: GateObjects<P, S, P::Ctx, X>,
    waits: Waits,
    stopped: AtomicBool,
}

impl<'a, P, S, X, R> Model for ObjectGate<'a, P, S, X, R>
where
    P: ProvideCredential,
{
    ghost use Rattle.object_gate.specs.declared.objects.GateObjects.{GateObjects};

    ghost Value = { GateObjects P S P.Ctx X };

    ghost view = { λ gate. gate.objects };
}

impl<'a, P, S, X, R> ObjectGate<'a, P, S, X, R>
where
    P: ProvideCredential,
{
    /// A gate over these objects, which waits for them so long.
    pub fn new(
        rt: &'a R,
        alloc: Global,
        objects: GateObjects<P, S, P::Ctx, X>,
        waits: Waits,
    ) -> ObjectGate<'a, P, S, X, R>
        ensures { result ≡ objects }
    {
        ObjectGate {
            rt,
            alloc,
            objects,
            waits,
            stopped: AtomicBool::new(false),
        }
    }

    /// Ends all waits for providers and services: what is pending at the end of its sleep is not polled
    /// again, and what is asked later is polled once.
    pub fn stop(&self) {
        self.stopped.store(true, Ordering::SeqCst);
    }

    fn is_stopped(&self) -> bool {
        self.stopped.load(Ordering::SeqCst)
    }
}

impl<P, S, X, R> ObjectGate<'_, P, S, X, R>
where
    P: ProvideCredential,
    P::Credential: SigningCredential,
    S: SignRequest<Credential = P::Credential, Ctx = P::Ctx>,
    R: Clock,
{
    /// Polls a load that is pending until its provider answers, or the wait is over.
    fn wait_for_load(&self, provider: &P, first: P::Load) -> GateLoad<P::Credential>
        requires { P.started provider.now self.now.ctx first }
        ensures { IfAnswered result (IsAnswerOf (P.gives provider.now self.now.ctx)) }
    {
        let mut load = LoadState::Started(first);
        for _ in 0..self.waits.polls {
            thread::sleep(self.rt, self.waits.pause);
            if self.is_stopped() {
                return GateLoad::NotYet;
            }
            match poll_provider(self.alloc, provider, &self.objects.ctx, load) {
                LoadAnswer::Pending(pending) => load = LoadState::Started(pending),
                answered => return gate_load(answered),
            }
        }
        GateLoad::NotYet
    }

    /// Polls a work once. What its service was asked for is seen by the contract alone.
    fn poll_work(
        &self,
        _credential: &P::Credential,
        _head: &Head,
        mut work: S::Work,
        mut candidate: Head,
    ) -> WorkAnswer<S::Work>
        requires started { S.started self.now.service self.now.ctx
            (operation_with self.now _credential.now) work }
        requires candidate { IsCandidate (S.gives self.now.service self.now.ctx
            (operation_with self.now _credential.now) _head.now) _head.now candidate }
        ensures { IsWorkAnswer (S.started self.now.service self.now.ctx
            (operation_with self.now _credential.now)) (S.gives self.now.service self.now.ctx
            (operation_with self.now _credential.now) _head.now) result }
    {
        let objects = &self.objects;
        match objects
            .service
            .poll_sign(self.alloc, &objects.ctx, &mut work, &mut candidate)
        {
            Polled::Pending => WorkAnswer::Pending(work, candidate),
            Polled::Ready(()) => WorkAnswer::Signed(candidate),
            Polled::Failed(e) => WorkAnswer::Failed(e),
            Polled::OutOfMemory => WorkAnswer::OutOfMemory,
        }
    }

    /// Polls a work that was begun until its service answers, or the wait is over.
    fn wait_for_work(
        &self,
        credential: &P::Credential,
        head: &Head,
        work: S::Work,
        candidate: Head,
    ) -> Result<Verdict, NoMemory<()>>
        requires started { S.started self.now.service self.now.ctx
            (operation_with self.now credential.now) work }
        requires candidate { candidate ≡ head.now }
        ensures { IfOk result (IsVerdictOf (S.gives self.now.service self.now.ctx
            (operation_with self.now credential.now) head.now)) }
    {
        let mut answer = self.poll_work(credential, head, work, candidate);
        for _ in 0..self.waits.polls {
            answer = match answer {
                WorkAnswer::Pending(work, candidate) => {
                    thread::sleep(self.rt, self.waits.pause);
                    if self.is_stopped() {
                        let pending = WorkAnswer::Pending(work, candidate);
                        return self.verdict_of(credential, head, pending);
                    }
                    self.poll_work(credential, head, work, candidate)
                }
                answered => return self.verdict_of(credential, head, answered),
            };
        }
        self.verdict_of(credential, head, answer)
    }

    /// What a service answered, as a gate says it. What it was asked for is seen by the contract alone.
    fn verdict_of(
        &self,
        _credential: &P::Credential,
        _head: &Head,
        answer: WorkAnswer<S::Work>,
    ) -> Result<Verdict, NoMemory<()>>
        requires { IsWorkAnswer (S.started self.now.service self.now.ctx
            (operation_with self.now _credential.now)) (S.gives self.now.service self.now.ctx
            (operation_with self.now _credential.now) _head.now) answer }
        ensures { IfOk result (IsVerdictOf (S.gives self.now.service self.now.ctx
            (operation_with self.now _credential.now) _head.now)) }
    {
        match answer {
            WorkAnswer::Pending(..) => Ok(Verdict::Failed(UNANSWERED)),
            WorkAnswer::Signed(candidate) => Ok(Verdict::Accepted(candidate)),
            WorkAnswer::Failed(e) => Ok(Verdict::Failed(number_of(e.kind()))),
            WorkAnswer::OutOfMemory => Err(NoMemory { back: () }),
        }
    }
}

impl<P, S, X, R> Gate<P::Credential> for ObjectGate<'_, P, S, X, R>
where
    P: ProvideCredential,
    P::Credential: SigningCredential,
    S: SignRequest<Credential = P::Credential, Ctx = P::Ctx>,
    X: GateClock,
    R: Clock,
{
    ghost meaning = { λ gate. object_meaning P.ProvideCredential S.SignRequest.own X.shows gate };

    fn load(&self, _call: CallId, provider: u32, _turn: u64) -> GateLoad<P::Credential> {
        let Some(provider) = provider_at(&self.objects.providers, provider) else {
            return GateLoad::Answer(Answer::Missing);
        };
        let unstarted = LoadState::Unstarted;
        match poll_provider(self.alloc, provider, &self.objects.ctx, unstarted) {
            LoadAnswer::Pending(load) => self.wait_for_load(provider, load),
            answered => gate_load(answered),
        }
    }

    fn verdict(
        &self,
        _call: CallId,
        credential: &P::Credential,
        head: &Head,
    ) -> Result<Verdict, NoMemory<()>> {
        let candidate = head.try_clone(self.alloc)?;
        let objects = &self.objects;
        let work = objects
            .service
            .sign_request(self.alloc, &objects.ctx, credential, objects.expires_in)?;
        self.wait_for_work(credential, head, work, candidate)
    }

    fn now(&self) -> Timestamp {
        self.objects.clock.now()
    }
}

/// What a provider answered, as a gate says it.
fn gate_load<K: Drop, L: Drop>(answer: LoadAnswer<K, L>) -> GateLoad<K>
    ensures { result ≡ gate_load answer }
{
    match answer {
        LoadAnswer::Pending(_) => GateLoad::NotYet,
        LoadAnswer::OutOfMemory(_) => GateLoad::OutOfMemory,
        LoadAnswer::Found(credential) => GateLoad::Answer(Answer::Found(credential)),
        LoadAnswer::Missing => GateLoad::Answer(Answer::Missing),
        LoadAnswer::Failed(e) => GateLoad::Answer(Answer::Failed(number_of(e.kind()))),
    }
}
