//! A worker on one job: it begins, polls, loads and signs until the call is over.
ghost use Rattle.std.specs.Prelude.{◌≡◌, ◌++◌, List};
ghost use Rattle.signer_book.specs.declared.pass.Receipt.{Receipt};
ghost use Rattle.signer_shared.specs.Asking.{Follows, IsInTime};
ghost use Rattle.signer_shared.specs.Serving.{Advances, IsNext, IsGivenUp, IsLive, IsServing};
ghost use Rattle.signer_shared.specs.declared.next_step.NextStep.{NextStep};
ghost use Rattle.signer_shared.specs.declared.next_step.NextStep.TheVariants.{Begin, Poll, Load, Sign, Over};

use crate::gate::GateLoad;
use crate::job::{Job, Served};
use crate::next_step::{JobEnd, NextStep};
use crate::surroundings::Surroundings;
use sequential_signer::{Answer, Event, Reply};
use sign_base::Head;
use signer_book::Pass;
use std::sync::Wait;
use std::thread;

/// Serves jobs at a signer, with the answers of a gate.
#[derive(Drop)]
pub(crate) struct JobServer<'a, S, R> {
    pub(crate) rt: &'a R,
    pub(crate) around: &'a S,
    pub(crate) turns: u64,
}

impl<S: Surroundings, R: Wait> JobServer<'_, S, R> {
    /// Serves the jobs in order, until an allocation fails.
    pub(crate) fn serve_each(
        &self,
        history: &mut S::History,
        pass: &mut Pass<S::Credential>,
        jobs: &[Job],
    ) -> Served
        ensures { (added : List (Receipt S.Credential)) × (pass.new ≡ pass.old ++ added)
            × IsServing (S.meaning self.now.around.now) self.now.turns jobs.now added result }
    {
        let mut served = Served::new();
        for job in jobs {
            served.count(self.serve(history, pass, job));
            if served.out_of_memory {
                return served;
            }
        }
        served
    }

    /// Serves one job to its end.
    fn serve(&self, history: &mut S::History, pass: &mut Pass<S::Credential>, job: &Job) -> JobEnd
        ensures advances { Advances (S.meaning self.now.around.now) self.now.turns job.now Begin
            pass.old pass.new (Over result) }
        ensures follows { Follows (S.allows history.new) job.now.call pass.old pass.new (Over result) }
    {
        let mut next = NextStep::Begin;
        for _ in self.rt.forever() {
            next = match next {
                NextStep::Begin => self.begin(history, pass, job),
                NextStep::Poll => self.poll(history, pass, job),
                NextStep::Load(provider) => self.load(history, pass, job, provider),
                NextStep::Sign(credential) => self.sign(history, pass, job, credential),
                NextStep::Over(end) => return end,
            };
        }
        unreachable!()
    }

    fn begin(
        &self,
        history: &mut S::History,
        pass: &mut Pass<S::Credential>,
        job: &Job,
    ) -> NextStep<S::Credential>
        ensures advances { Advances (S.meaning self.now.around.now) self.now.turns job.now Begin
            pass.old pass.new result }
        ensures follows { Follows (S.allows history.new) job.now.call pass.old pass.new result }
    {
        match job.head.try_clone(self.around.alloc()) {
            Ok(head) => self.begin_with(history, pass, job, head),
            Err(_) => NextStep::Over(JobEnd::OutOfMemory { not_now: false }),
        }
    }

    /// Begins the call with a copy of its job's head.
    fn begin_with(
        &self,
        history: &mut S::History,
        pass: &mut Pass<S::Credential>,
        job: &Job,
        head: Head,
    ) -> NextStep<S::Credential>
        requires { head ≡ job.now.head }
        ensures advances { Advances (S.meaning self.now.around.now) self.now.turns job.now Begin
            pass.old pass.new result }
        ensures follows { Follows (S.allows history.new) job.now.call pass.old pass.new result }
    {
        let begin = Event::Begin {
            call: job.call,
            head,
            expires_in: job.expires_in,
        };
        self.start(history, pass, job, &begin)
    }

    /// Makes a call's first event. Where an allocation fails nothing was begun.
    fn start(
        &self,
        history: &mut S::History,
        pass: &mut Pass<S::Credential>,
        job: &Job,
        event: &Event<S::Credential>,
    ) -> NextStep<S::Credential>
        requires next { IsNext (S.meaning self.now.around.now) job.now Begin event.now }
        requires in_time { IsInTime (S.allows history.old) event.now }
        ensures advances { Advances (S.meaning self.now.around.now) self.now.turns job.now Begin
            pass.old pass.new result }
        ensures follows { Follows (S.allows history.new) job.now.call pass.old pass.new result }
    {
        let _ = job;
        match self.around.step(history, pass, event) {
            Reply::OutOfMemory => NextStep::Over(JobEnd::OutOfMemory { not_now: false }),
            reply => NextStep::after(reply),
        }
    }

    fn poll(
        &self,
        history: &mut S::History,
        pass: &mut Pass<S::Credential>,
        job: &Job,
    ) -> NextStep<S::Credential>
        ensures advances { Advances (S.meaning self.now.around.now) self.now.turns job.now Poll
            pass.old pass.new result }
        ensures follows { (start : List (Receipt S.Credential))
            → Follows (S.allows history.new) job.now.call start pass.new result }
    {
        let poll = Event::Poll {
            call: job.call,
            now: self.around.now(history),
        };
        self.go_on(history, pass, job, &poll)
    }

    /// Asks the gate for the provider's answer, turn after turn, and hands it in.
    fn load(
        &self,
        history: &mut S::History,
        pass: &mut Pass<S::Credential>,
        job: &Job,
        provider: u32,
    ) -> NextStep<S::Credential>
        requires { (S.allows history.old).loads provider 0 }
        ensures advances { Advances (S.meaning self.now.around.now) self.now.turns job.now (Load provider)
            pass.old pass.new result }
        ensures follows { (start : List (Receipt S.Credential))
            → Follows (S.allows history.new) job.now.call start pass.new result }
    {
        for turn in 0..self.turns {
            match self.around.load(history, job.call, provider, turn) {
                GateLoad::NotYet => thread::yield_now(),
                GateLoad::Answer(answer) => {
                    return self.provide(history, pass, job, provider, answer);
                }
                GateLoad::OutOfMemory => return self.stop(history, pass, job),
            }
        }
        self.give_up(history, pass, job, provider)
    }

    fn provide(
        &self,
        history: &mut S::History,
        pass: &mut Pass<S::Credential>,
        job: &Job,
        provider: u32,
        answer: Answer<S::Credential>,
    ) -> NextStep<S::Credential>
        requires { (S.meaning self.now.around.now).gives job.now.call provider answer }
        ensures advances { Advances (S.meaning self.now.around.now) self.now.turns job.now (Load provider)
            pass.old pass.new result }
        ensures follows { (start : List (Receipt S.Credential))
            → Follows (S.allows history.new) job.now.call start pass.new result }
    {
        let now = self.around.now(history);
        let provided = Event::Provided {
            call: job.call,
            now,
            answer,
        };
        self.go_on(history, pass, job, &provided)
    }

    /// Asks the gate for the service's answer, and hands it in.
    fn sign(
        &self,
        history: &mut S::History,
        pass: &mut Pass<S::Credential>,
        job: &Job,
        credential: S::Credential,
    ) -> NextStep<S::Credential>
        requires { (S.allows history.old).judges credential }
        ensures advances { Advances (S.meaning self.now.around.now) self.now.turns job.now (Sign credential)
            pass.old pass.new result }
        ensures follows { (start : List (Receipt S.Credential))
            → Follows (S.allows history.new) job.now.call start pass.new result }
    {
        let verdict = self
            .around
            .verdict(history, job.call, &credential, &job.head);
        let Ok(answer) = verdict else {
            return self.stop(history, pass, job);
        };
        let signed = Event::Signed {
            call: job.call,
            answer,
        };
        self.go_on(history, pass, job, &signed)
    }

    /// Makes the next event of a live call. Where the reply is `Pending` the call sleeps until its turn, and
    /// other threads may run first.
    fn go_on(
        &self,
        history: &mut S::History,
        pass: &mut Pass<S::Credential>,
        job: &Job,
        event: &Event<S::Credential>,
    ) -> NextStep<S::Credential>
        requires { IsInTime (S.allows history.old) event.now }
        ensures advances { (before : NextStep S.Credential) → IsLive before
            → IsNext (S.meaning self.now.around.now) job.now before event.now
            → Advances (S.meaning self.now.around.now) self.now.turns job.now before
            pass.old pass.new result }
        ensures follows { (start : List (Receipt S.Credential))
            → Follows (S.allows history.new) job.now.call start pass.new result }
    {
        match self.around.step(history, pass, event) {
            Reply::OutOfMemory => self.stop(history, pass, job),
            Reply::Pending => {
                self.around.sleep_behind(event);
                thread::yield_now();
                NextStep::Poll
            }
            reply => NextStep::after(reply),
        }
    }

    /// Cancels a call whose provider was ready in none of the turns.
    fn give_up(
        &self,
        history: &mut S::History,
        pass: &mut Pass<S::Credential>,
        job: &Job,
        provider: u32,
    ) -> NextStep<S::Credential>
        requires { IsGivenUp (S.meaning self.now.around.now) self.now.turns job.now (Load provider) }
        ensures advances { Advances (S.meaning self.now.around.now) self.now.turns job.now (Load provider)
            pass.old pass.new result }
        ensures follows { (start : List (Receipt S.Credential))
            → Follows (S.allows history.new) job.now.call start pass.new result }
    {
        let cancel = Event::Cancel { call: job.call };
        NextStep::after(self.around.step(history, pass, &cancel))
    }

    /// Cancels a live call at which an allocation failed.
    fn stop(
        &self,
        history: &mut S::History,
        pass: &mut Pass<S::Credential>,
        job: &Job,
    ) -> NextStep<S::Credential>
        ensures advances { (before : NextStep S.Credential) → IsLive before
            → Advances (S.meaning self.now.around.now) self.now.turns job.now before
            pass.old pass.new result }
        ensures follows { (start : List (Receipt S.Credential))
            → Follows (S.allows history.new) job.now.call start pass.new result }
    {
        let cancel = Event::Cancel { call: job.call };
        let reply = self.around.step(history, pass, &cancel);
        NextStep::stopped(&reply)
    }
}
