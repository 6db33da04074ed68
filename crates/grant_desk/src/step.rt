//! One event: it finds its call, and does what the call's stage lets it do. What can run out of memory is
//! taken before anything changes.
ghost use Rattle.std.specs.Prelude.{◌≡◌, ◌≢◌};

use crate::state::State;
use desk_parts::{CallRecord, Stage};
use sequential_signer::{DeadlineRule, GrantEvent, GrantReply, SigningCredential};
use sign_base::CallId;
use std::time::Duration;

impl<K: SigningCredential, D: DeadlineRule<Credential = K>> State<K, D> {
    ghost use Rattle.sequential_signer.specs.Policy.{policy_for};
    ghost use Rattle.sequential_signer.specs.declared.grant_event.GrantEvent.TheVariants.{Begin, Cancel};
    ghost use Rattle.sequential_signer.specs.declared.grant_event.GrantReply.TheVariants.{OutOfMemory};
    ghost use Rattle.desk_parts.specs.Memory.{ClonesAreFree};
    ghost use Rattle.grant_desk.specs.GrantPlaces.{GrantPrecondition};
    ghost use Rattle.grant_desk.specs.GrantAction.{GrantTransition};
    ghost use Rattle.grant_desk.specs.GrantSteps.{RunsOutAtBegins};

    pub fn step(&mut self, event: &GrantEvent<K>) -> GrantReply<K>
        requires { GrantPrecondition self.old }
        ensures done { GrantTransition (policy_for K.SigningCredential D.DeadlineRule)
            event.now self.old result self.new }
        ensures memory { ClonesAreFree K.clones_freely → RunsOutAtBegins event.now result }
    {
        match event {
            GrantEvent::Begin { call, expires_in } => self.begin(*call, *expires_in),
            GrantEvent::Poll { call, now } => self.poll(*call, *now),
            GrantEvent::Provided { call, now, answer } => self.provided(*call, *now, answer),
            GrantEvent::Granted { call, now, answer } => self.granted(*call, *now, answer),
            GrantEvent::Cancel { call } => self.cancel(*call),
        }
    }

    /// A begin: the call's record is taken, or nothing is.
    fn begin(&mut self, call: CallId, expires_in: Option<Duration>) -> GrantReply<K>
        ensures { GrantTransition (policy_for K.SigningCredential D.DeadlineRule)
            (Begin call expires_in) self.old result self.new }
    {
        if !self.tables.begin_fits(call) {
            return GrantReply::NotNow;
        }
        let live = CallRecord {
            stage: Stage::Unpolled,
            head: (),
            expires_in,
            answers: 0,
        };
        match self.tables.begin_call(call, live) {
            Ok(()) => GrantReply::Begun,
            Err(_) => GrantReply::OutOfMemory,
        }
    }

    /// A cancel, which ends any live call.
    fn cancel(&mut self, call: CallId) -> GrantReply<K>
        requires { GrantPrecondition self.old }
        ensures done { GrantTransition (policy_for K.SigningCredential D.DeadlineRule)
            (Cancel call) self.old result self.new }
        ensures memory { result ≢ OutOfMemory }
    {
        if self.find(call).is_none() {
            return GrantReply::NotNow;
        }
        self.tables.end_call(call);
        GrantReply::Cancelled
    }
}
