//! The granter's answer: what it made is given where it is valid at that moment, and is never cached.
ghost use Rattle.std.specs.Prelude.{◌≡◌, ◌≢◌};

use crate::state::State;
use desk_parts::Stage;
use sequential_signer::{DeadlineRule, GrantReply, GrantWhy, Made, SigningCredential};
use sign_base::{CallId, Timestamp};

impl<K: SigningCredential, D: DeadlineRule<Credential = K>> State<K, D> {
    ghost use Rattle.sequential_signer.specs.Policy.{policy_for};
    ghost use Rattle.sequential_signer.specs.declared.grant_event.GrantEvent.TheVariants.{Granted};
    ghost use Rattle.sequential_signer.specs.declared.grant_event.GrantReply.TheVariants.{OutOfMemory};
    ghost use Rattle.desk_parts.specs.Memory.{ClonesAreFree};
    ghost use Rattle.grant_desk.specs.GrantPlaces.{GrantPrecondition};
    ghost use Rattle.grant_desk.specs.GrantAction.{GrantPerforms, GrantTransition, made_action};

    pub fn granted(&mut self, call: CallId, now: Timestamp, answer: &Made<K>) -> GrantReply<K>
        requires { GrantPrecondition self.old }
        ensures done { GrantTransition (policy_for K.SigningCredential D.DeadlineRule)
            (Granted call now answer.now) self.old result self.new }
        ensures memory { ClonesAreFree K.clones_freely → result ≢ OutOfMemory }
    {
        let Some(view) = self.find(call) else {
            return GrantReply::NotNow;
        };
        match (view.stage, answer) {
            (Stage::Signing, Made::Made(made)) => self.give(call, now, made),
            (Stage::Signing, Made::Failed(e)) => self.refuse(call, GrantWhy::Service(*e)),
            (Stage::Unpolled | Stage::Queued | Stage::Loading, _) => GrantReply::NotNow,
        }
    }

    /// What the granter made. A call that is refused takes no memory.
    fn give(&mut self, call: CallId, now: Timestamp, made: &K) -> GrantReply<K>
        ensures done { GrantPerforms
            (made_action (policy_for K.SigningCredential D.DeadlineRule) self.old now made.now)
            call self.old result self.new }
        ensures memory { ClonesAreFree K.clones_freely → result ≢ OutOfMemory }
    {
        if !made.is_valid_at(now, now) {
            return self.refuse(call, GrantWhy::Stale(now));
        }
        let Ok(credential) = made.try_clone(self.tables.alloc()) else {
            return GrantReply::OutOfMemory;
        };
        self.tables.end_call(call);
        GrantReply::Given { credential }
    }
}
