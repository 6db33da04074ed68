//! One event that is handed over: its head is moved, and no copy is made of it.
ghost use Rattle.std.specs.Prelude.{◌≡◌, ◌≢◌};

use crate::state::State;
use desk_parts::Stage;
use sequential_signer::{DeadlineRule, Event, Reply, SigningCredential, Verdict, Why};
use sign_base::{CallId, Head};

impl<K: SigningCredential, D: DeadlineRule<Credential = K>> State<K, D> {
    ghost use Rattle.sequential_signer.specs.Policy.{policy_for};
    ghost use Rattle.sequential_signer.specs.declared.event.Event.TheVariants.{Signed};
    ghost use Rattle.sequential_signer.specs.declared.event.Reply.TheVariants.{OutOfMemory};
    ghost use Rattle.desk_parts.specs.Memory.{ClonesAreFree};
    ghost use Rattle.sign_desk.specs.Memory.{RunsOutAtBegins};
    ghost use Rattle.sign_desk.specs.StepPrecondition.{StepPrecondition};
    ghost use Rattle.sign_desk.specs.Transition.{Transition};

    /// The event is handed over: what is kept of it is moved.
    pub fn step_owned(&mut self, event: Event<K>) -> Reply<K>
        requires { StepPrecondition self.old }
        ensures done { Transition (policy_for K.SigningCredential D.DeadlineRule)
            event self.old result self.new }
        ensures memory { ClonesAreFree K.clones_freely → RunsOutAtBegins event result }
    {
        match event {
            Event::Begin {
                call,
                head,
                expires_in,
            } => self.take_begin(call, head, expires_in),
            Event::Poll { call, now } => self.poll(call, now),
            Event::Provided { call, now, answer } => self.provided(call, now, &answer),
            Event::Signed { call, answer } => self.take_signed(call, answer),
            Event::Cancel { call } => self.cancel(call),
        }
    }

    fn take_signed(&mut self, call: CallId, answer: Verdict) -> Reply<K>
        requires { StepPrecondition self.old }
        ensures done { Transition (policy_for K.SigningCredential D.DeadlineRule) (Signed call answer)
            self.old result self.new }
        ensures memory { result ≢ OutOfMemory }
    {
        let Some(view) = self.find(call) else {
            return Reply::NotNow;
        };
        match (view.stage, answer) {
            (Stage::Signing, Verdict::Accepted(candidate)) => {
                let (uri, headers) = candidate.into_target();
                self.accept_with(call, uri, headers)
            }
            (Stage::Signing, Verdict::Failed(e)) => self.refuse(call, Why::Service(e), None),
            (Stage::Unpolled | Stage::Queued | Stage::Loading, _) => Reply::NotNow,
        }
    }
}
