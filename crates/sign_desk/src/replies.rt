//! The replies to a live call. Each notes how far the call is from now on.
ghost use Rattle.std.specs.Prelude.{◌≡◌, ◌<◌, IsSome, length};

use crate::state::State;
use desk_parts::{LiveCallView, Stage};
use sequential_signer::{DeadlineRule, Reply, SigningCredential, Why};
use sign_base::CallId;

impl<K: SigningCredential, D: DeadlineRule<Credential = K>> State<K, D> {
    ghost use Rattle.sequential_signer.specs.declared.event.Reply.TheVariants.{Pending, Ask, Sign, Refused};
    ghost use Rattle.desk_parts.specs.Tables.{find_call};
    ghost use Rattle.desk_parts.specs.Action.{TakesEffect, live_effect, end_effect};
    ghost use Rattle.sign_desk.specs.HoldAction.{waited_hold};
    ghost use Rattle.desk_parts.specs.declared.call_record.Stage.TheVariants.{Queued, Loading, Signing};

    /// The call waits for its turn.
    pub fn wait(&mut self, view: LiveCallView) -> Reply<K>
        requires { IsSome (find_call view.call self.old.calls) }
        ensures { TakesEffect (live_effect self.old (record view { stage = Queued }) Pending)
            view.call result self.new }
    {
        self.tables.note_progress(LiveCallView {
            stage: Stage::Queued,
            ..view
        });
        Reply::Pending
    }

    /// The call loads, and waits for the answer of this provider.
    pub fn ask(&mut self, view: LiveCallView, provider: u32) -> Reply<K>
        requires { IsSome (find_call view.call self.old.calls) }
        ensures { TakesEffect (live_effect self.old (record view { stage = Loading }) (Ask provider))
            view.call result self.new }
    {
        self.tables.note_progress(LiveCallView {
            stage: Stage::Loading,
            ..view
        });
        Reply::Ask { provider }
    }

    /// The call signs with this credential. By this `wake` has its turn.
    pub fn sign(&mut self, view: LiveCallView, credential: K, wake: Option<CallId>) -> Reply<K>
        requires { IsSome (find_call view.call self.old.calls) }
        ensures { TakesEffect (live_effect self.old (record view { stage = Signing }) (Sign credential wake))
            view.call result self.new }
    {
        self.tables.note_progress(LiveCallView {
            stage: Stage::Signing,
            ..view
        });
        Reply::Sign { credential, wake }
    }

    /// The call is over. By this `wake` has its turn.
    pub fn refuse(&mut self, call: CallId, why: Why, wake: Option<CallId>) -> Reply<K>
        ensures { TakesEffect (end_effect self.old (Refused why wake)) call result self.new }
    {
        self.tables.end_call(call);
        Reply::Refused { why, wake }
    }

    /// The call signs with this credential, and leaves its queue: the next in line is woken.
    pub fn sign_and_leave(&mut self, view: LiveCallView, credential: K) -> Reply<K>
        requires live { IsSome (find_call view.call self.old.calls) }
        requires queue { view.cache < length self.old.queues }
        ensures { TakesEffect
            (live_effect (waited_hold self.old view).ended_desk (record view { stage = Signing })
            (Sign credential (waited_hold self.old view).wake))
            view.call result self.new }
    {
        let wake = self.tables.leave(view.cache, view.call);
        self.sign(view, credential, wake)
    }

    /// The call is over, and leaves its queue: the next in line is woken.
    pub fn refuse_and_leave(&mut self, view: LiveCallView, why: Why) -> Reply<K>
        requires { view.cache < length self.old.queues }
        ensures { TakesEffect (end_effect (waited_hold self.old view).ended_desk
            (Refused why (waited_hold self.old view).wake)) view.call result self.new }
    {
        let wake = self.tables.leave(view.cache, view.call);
        self.refuse(view.call, why, wake)
    }
}
