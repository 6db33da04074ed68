//! The load of a call: what each answer of a provider does.
ghost use Rattle.std.specs.Prelude.{◌≡◌, ◌≢◌, ◌<◌, IfSome, IsSome, length, slice_get};

use crate::state::State;
use desk_parts::{LiveCallView, Stage};
use sequential_signer::{Answer, DeadlineRule, Loader, Reply, SigningCredential, Why};
use sign_base::{CallId, Timestamp};

impl<K: SigningCredential, D: DeadlineRule<Credential = K>> State<K, D> {
    ghost use Rattle.sequential_signer.specs.Policy.{policy_for};
    ghost use Rattle.sequential_signer.specs.declared.event.Event.TheVariants.{Provided};
    ghost use Rattle.sequential_signer.specs.declared.event.Answer.TheVariants.{Found};
    ghost use Rattle.desk_parts.specs.Tables.{find_call};
    ghost use Rattle.sign_desk.specs.StepPrecondition.{StepPrecondition, IsPlaced};
    ghost use Rattle.desk_parts.specs.Places.{HasPlaces, provider_count};
    ghost use Rattle.desk_parts.specs.declared.call_record.Stage.TheVariants.{Loading};
    ghost use Rattle.sign_desk.specs.Action.{Performs};
    ghost use Rattle.desk_parts.specs.Memory.{ClonesAreFree};
    ghost use Rattle.sequential_signer.specs.declared.event.Reply.TheVariants.{OutOfMemory};
    ghost use Rattle.desk_parts.specs.HoldProgress.{desk_check, desk_load, next_load};
    ghost use Rattle.sign_desk.specs.HoldAction.{hold_action, loading_hold};
    ghost use Rattle.sign_desk.specs.Transition.{load_action, Transition};
    ghost use Rattle.desk_parts.specs.HoldProgress.{with_answer};
    ghost use Rattle.desk_parts.specs.IsCheck.{IsCheck};

    pub fn provided(&mut self, call: CallId, now: Timestamp, answer: &Answer<K>) -> Reply<K>
        requires { StepPrecondition self.old }
        ensures done { Transition (policy_for K.SigningCredential D.DeadlineRule)
            (Provided call now answer.now) self.old result self.new }
        ensures memory { ClonesAreFree K.clones_freely → result ≢ OutOfMemory }
    {
        let Some(view) = self.find(call) else {
            return Reply::NotNow;
        };
        match view.stage {
            Stage::Loading => self.load(view, now, answer),
            Stage::Unpolled | Stage::Queued | Stage::Signing => Reply::NotNow,
        }
    }

    fn load(&mut self, view: LiveCallView, now: Timestamp, answer: &Answer<K>) -> Reply<K>
        requires placed { IsPlaced self.old view }
        requires loading { view.stage ≡ Loading }
        ensures done { Performs
            (load_action (policy_for K.SigningCredential D.DeadlineRule) self.old now answer.now view)
            view.call self.old result self.new }
        ensures memory { ClonesAreFree K.clones_freely → result ≢ OutOfMemory }
    {
        let view = self.tables.with_answer(view);
        match answer {
            Answer::Found(found) => self.found(view, now, found),
            Answer::Missing => self.ask_next_or_refuse(view, Why::Missing),
            Answer::Failed(e) => self.ask_next_or_refuse(view, Why::Loader(*e)),
        }
    }

    /// A credential that was found: it is checked, and only one that is handed out is cached.
    fn found(&mut self, view: LiveCallView, now: Timestamp, found: &K) -> Reply<K>
        requires live { IsSome (find_call view.call self.old.calls) }
        requires places { HasPlaces self.old view.cache view.rule }
        ensures done { Performs (hold_action (loading_hold self.old view) view
            (desk_load (policy_for K.SigningCredential D.DeadlineRule) self.old now view (Found found.now)))
            view.call self.old result self.new }
        ensures memory { ClonesAreFree K.clones_freely → result ≢ OutOfMemory }
    {
        if let Err(why) = self.tables.check(view, now, found) {
            return self.refuse_and_leave(view, why);
        }
        let Ok(cached) = found.try_clone(self.tables.alloc()) else {
            return Reply::OutOfMemory;
        };
        let Ok(credential) = found.try_clone(self.tables.alloc()) else {
            return Reply::OutOfMemory;
        };
        self.tables.store(view.cache, cached);
        self.sign_and_leave(view, credential)
    }

    /// An answer without a credential: the next provider of a chain is asked, or the call is refused.
    fn ask_next_or_refuse(&mut self, view: LiveCallView, single: Why) -> Reply<K>
        requires live { IsSome (find_call view.call self.old.calls) }
        requires places { HasPlaces self.old view.cache view.rule }
        ensures done { Performs (hold_action (loading_hold self.old view) view
            (next_load (slice_get self.old.loaders view.cache) view.answers single))
            view.call self.old result self.new }
        ensures memory { ClonesAreFree K.clones_freely → result ≢ OutOfMemory }
    {
        match self.tables.loader_at(view.cache) {
            Loader::Single => self.refuse_and_leave(view, single),
            Loader::Chain(n) if view.answers < n => self.ask(view, view.answers),
            Loader::Chain(_) => self.refuse_and_leave(view, Why::Missing),
        }
    }
}
