//! The polls of a call: it takes its place at the first, and looks at its cache once it holds.
ghost use Rattle.std.specs.Prelude.{◌≡◌, ◌≢◌};

use crate::state::State;
use desk_parts::{LiveCallView, Lookup, Stage};
use sequential_signer::{DeadlineRule, Reply, SigningCredential};
use sign_base::{CallId, Timestamp};

impl<K: SigningCredential, D: DeadlineRule<Credential = K>> State<K, D> {
    ghost use Rattle.sign_base.specs.Calls.{is_first};
    ghost use Rattle.sequential_signer.specs.Policy.{policy_for};
    ghost use Rattle.sequential_signer.specs.declared.event.Event.TheVariants.{Poll};
    ghost use Rattle.desk_parts.specs.Queue.{is_held_queue, queue_at};
    ghost use Rattle.sign_desk.specs.StepPrecondition.{StepPrecondition, IsPlaced};
    ghost use Rattle.desk_parts.specs.declared.call_record.Stage.TheVariants.{Unpolled};
    ghost use Rattle.sign_desk.specs.Action.{Performs};
    ghost use Rattle.desk_parts.specs.Memory.{ClonesAreFree};
    ghost use Rattle.sequential_signer.specs.declared.event.Reply.TheVariants.{OutOfMemory};
    ghost use Rattle.desk_parts.specs.HoldProgress.{desk_lookup};
    ghost use Rattle.sign_desk.specs.Transition.{first_poll_action, later_poll_action, Transition};

    pub fn poll(&mut self, call: CallId, now: Timestamp) -> Reply<K>
        requires { StepPrecondition self.old }
        ensures done { Transition (policy_for K.SigningCredential D.DeadlineRule)
            (Poll call now) self.old result self.new }
        ensures memory { ClonesAreFree K.clones_freely → result ≢ OutOfMemory }
    {
        let Some(view) = self.find(call) else {
            return Reply::NotNow;
        };
        match view.stage {
            Stage::Unpolled => self.first_poll(view, now),
            Stage::Queued => self.later_poll(view, now),
            Stage::Loading | Stage::Signing => Reply::Pending,
        }
    }

    /// The first poll of a call. It holds where nobody does, and else waits behind all that came before.
    fn first_poll(&mut self, view: LiveCallView, now: Timestamp) -> Reply<K>
        requires placed { IsPlaced self.old view }
        requires unpolled { view.stage ≡ Unpolled }
        ensures done { Performs
            (first_poll_action self.old view (is_held_queue (queue_at view.cache self.old.queues))
            (desk_lookup (policy_for K.SigningCredential D.DeadlineRule) self.old now view))
            view.call self.old result self.new }
        ensures memory { ClonesAreFree K.clones_freely → result ≢ OutOfMemory }
    {
        if self.tables.is_held(view.cache) {
            self.tables.enter(view.cache, view.call);
            return self.wait(view);
        }
        match self.tables.look(view, now) {
            Lookup::OutOfMemory => Reply::OutOfMemory,
            Lookup::Miss => {
                self.tables.enter(view.cache, view.call);
                self.ask(view, 0)
            }
            Lookup::Hit(credential) => {
                self.tables.release_place(view.cache);
                self.sign(view, credential, None)
            }
            Lookup::Refused(why) => {
                self.tables.release_place(view.cache);
                self.refuse(view.call, why, None)
            }
        }
    }

    /// A later poll of a call that waited: it looks where it holds by now.
    fn later_poll(&mut self, view: LiveCallView, now: Timestamp) -> Reply<K>
        requires { IsPlaced self.old view }
        ensures done { Performs
            (later_poll_action self.old view (is_first view.call (queue_at view.cache self.old.queues))
            (desk_lookup (policy_for K.SigningCredential D.DeadlineRule) self.old now view))
            view.call self.old result self.new }
        ensures memory { ClonesAreFree K.clones_freely → result ≢ OutOfMemory }
    {
        if !self.tables.is_held_by(view.cache, view.call) {
            return Reply::Pending;
        }
        match self.tables.look(view, now) {
            Lookup::OutOfMemory => Reply::OutOfMemory,
            Lookup::Miss => self.ask(view, 0),
            Lookup::Hit(credential) => self.sign_and_leave(view, credential),
            Lookup::Refused(why) => self.refuse_and_leave(view, why),
        }
    }
}
