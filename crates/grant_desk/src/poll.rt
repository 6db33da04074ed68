//! The polls of a call: one that has not looked at its cache looks, whatever other calls do.
ghost use Rattle.std.specs.Prelude.{◌≡◌, ◌≢◌};

use crate::replies::as_grant_why;
use crate::state::State;
use desk_parts::{LiveCallView, Lookup, Stage};
use sequential_signer::{DeadlineRule, GrantReply, SigningCredential};
use sign_base::{CallId, Timestamp};

impl<K: SigningCredential, D: DeadlineRule<Credential = K>> State<K, D> {
    ghost use Rattle.sequential_signer.specs.Policy.{policy_for};
    ghost use Rattle.sequential_signer.specs.declared.grant_event.GrantEvent.TheVariants.{Poll};
    ghost use Rattle.sequential_signer.specs.declared.grant_event.GrantReply.TheVariants.{OutOfMemory};
    ghost use Rattle.desk_parts.specs.Memory.{ClonesAreFree};
    ghost use Rattle.grant_desk.specs.GrantPlaces.{GrantPrecondition, IsGrantPlaced};
    ghost use Rattle.grant_desk.specs.GrantAction.{GrantPerforms, GrantTransition, look_action};

    pub fn poll(&mut self, call: CallId, now: Timestamp) -> GrantReply<K>
        requires { GrantPrecondition self.old }
        ensures done { GrantTransition (policy_for K.SigningCredential D.DeadlineRule)
            (Poll call now) self.old result self.new }
        ensures memory { ClonesAreFree K.clones_freely → result ≢ OutOfMemory }
    {
        let Some(view) = self.find(call) else {
            return GrantReply::NotNow;
        };
        match view.stage {
            Stage::Unpolled | Stage::Queued => self.look(view, now),
            Stage::Loading | Stage::Signing => GrantReply::Pending,
        }
    }

    /// The look of a call at its cache: the cached source is handed to the granter, or the call loads.
    fn look(&mut self, view: LiveCallView, now: Timestamp) -> GrantReply<K>
        requires { IsGrantPlaced self.old view }
        ensures done { GrantPerforms
            (look_action (policy_for K.SigningCredential D.DeadlineRule) self.old now view)
            view.call self.old result self.new }
        ensures memory { ClonesAreFree K.clones_freely → result ≢ OutOfMemory }
    {
        match self.tables.look(view, now) {
            Lookup::OutOfMemory => GrantReply::OutOfMemory,
            Lookup::Miss => self.ask(view, 0),
            Lookup::Hit(source) => self.grant(view, source),
            Lookup::Refused(why) => self.refuse(view.call, as_grant_why(why)),
        }
    }
}
