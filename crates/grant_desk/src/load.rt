//! The load of a call: what each answer of a provider does.
ghost use Rattle.std.specs.Prelude.{◌≡◌, ◌≢◌, ◌<◌, IsSome, length, slice_get};

use crate::replies::as_grant_why;
use crate::state::State;
use desk_parts::{LiveCallView, Stage};
use sequential_signer::{
    Answer, DeadlineRule, GrantReply, GrantWhy, Loader, SigningCredential, Why,
};
use sign_base::{CallId, Timestamp};

impl<K: SigningCredential, D: DeadlineRule<Credential = K>> State<K, D> {
    ghost use Rattle.sequential_signer.specs.Policy.{policy_for};
    ghost use Rattle.sequential_signer.specs.declared.event.Answer.TheVariants.{Found};
    ghost use Rattle.sequential_signer.specs.declared.grant_event.GrantEvent.TheVariants.{Provided};
    ghost use Rattle.sequential_signer.specs.declared.grant_event.GrantReply.TheVariants.{OutOfMemory};
    ghost use Rattle.desk_parts.specs.Change.{with_cached};
    ghost use Rattle.desk_parts.specs.HoldProgress.{desk_load, next_load};
    ghost use Rattle.desk_parts.specs.Memory.{ClonesAreFree};
    ghost use Rattle.desk_parts.specs.Tables.{find_call};
    ghost use Rattle.desk_parts.specs.declared.call_record.Stage.TheVariants.{Loading};
    ghost use Rattle.grant_desk.specs.GrantPlaces.{GrantPrecondition, IsGrantPlaced};
    ghost use Rattle.grant_desk.specs.GrantAction.{GrantPerforms, GrantTransition};
    ghost use Rattle.grant_desk.specs.GrantAction.{grant_load_action, progress_action};

    pub fn provided(&mut self, call: CallId, now: Timestamp, answer: &Answer<K>) -> GrantReply<K>
        requires { GrantPrecondition self.old }
        ensures done { GrantTransition (policy_for K.SigningCredential D.DeadlineRule)
            (Provided call now answer.now) self.old result self.new }
        ensures memory { ClonesAreFree K.clones_freely → result ≢ OutOfMemory }
    {
        let Some(view) = self.find(call) else {
            return GrantReply::NotNow;
        };
        match view.stage {
            Stage::Loading => self.load(view, now, answer),
            Stage::Unpolled | Stage::Queued | Stage::Signing => GrantReply::NotNow,
        }
    }

    fn load(&mut self, view: LiveCallView, now: Timestamp, answer: &Answer<K>) -> GrantReply<K>
        requires placed { IsGrantPlaced self.old view }
        requires loading { view.stage ≡ Loading }
        ensures done { GrantPerforms
            (grant_load_action (policy_for K.SigningCredential D.DeadlineRule) self.old now answer.now view)
            view.call self.old result self.new }
        ensures memory { ClonesAreFree K.clones_freely → result ≢ OutOfMemory }
    {
        let view = self.tables.with_answer(view);
        match answer {
            Answer::Found(found) => self.found(view, now, found),
            Answer::Missing => self.ask_next_or_refuse(view, Why::Missing),
            Answer::Failed(e) => self.ask_next_or_refuse(view, Why::Loader(*e)),
        }
    }

    /// A source that was found: it is checked, and only one that is handed to the granter is cached. It
    /// takes the place of a source that another call stored meanwhile.
    fn found(&mut self, view: LiveCallView, now: Timestamp, found: &K) -> GrantReply<K>
        requires live { IsSome (find_call view.call self.old.calls) }
        requires cached { view.cache < length self.old.caches }
        requires rule { view.rule < length self.old.rules }
        ensures done { GrantPerforms (progress_action (λ c. with_cached c view self.old) self.old view
            (desk_load (policy_for K.SigningCredential D.DeadlineRule) self.old now view (Found found.now)))
            view.call self.old result self.new }
        ensures memory { ClonesAreFree K.clones_freely → result ≢ OutOfMemory }
    {
        if let Err(why) = self.tables.check(view, now, found) {
            return self.refuse(view.call, as_grant_why(why));
        }
        let Ok(cached) = found.try_clone(self.tables.alloc()) else {
            return GrantReply::OutOfMemory;
        };
        let Ok(source) = found.try_clone(self.tables.alloc()) else {
            return GrantReply::OutOfMemory;
        };
        self.tables.store(view.cache, cached);
        self.grant(view, source)
    }

    /// An answer without a source: the next provider of a chain is asked, or the call is refused.
    fn ask_next_or_refuse(&mut self, view: LiveCallView, single: Why) -> GrantReply<K>
        requires live { IsSome (find_call view.call self.old.calls) }
        requires loader { view.cache < length self.old.loaders }
        ensures done { GrantPerforms (progress_action (λ c. with_cached c view self.old) self.old view
            (next_load (slice_get self.old.loaders view.cache) view.answers single))
            view.call self.old result self.new }
        ensures memory { result ≢ OutOfMemory }
    {
        match self.tables.loader_at(view.cache) {
            Loader::Single => self.refuse(view.call, as_grant_why(single)),
            Loader::Chain(n) if view.answers < n => self.ask(view, view.answers),
            Loader::Chain(_) => self.refuse(view.call, GrantWhy::Missing),
        }
    }
}
