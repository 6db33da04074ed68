//! The reply that an event would get, with nothing changed.
ghost use Rattle.std.specs.Prelude.{◌≡◌, ◌≢◌, IsSome, IfOk, slice_get};

use crate::state::State;
use desk_parts::{LiveCallView, Lookup, Stage};
use sequential_signer::{
    Answer, DeadlineRule, Event, Loader, Reply, SigningCredential, Verdict, Why,
};
use sign_base::{CallId, Head, NoMemory, Timestamp};
use std::alloc::Global;

impl<K: SigningCredential, D: DeadlineRule<Credential = K>> State<K, D> {
    ghost use Rattle.sign_base.specs.Calls.{is_first};
    ghost use Rattle.sequential_signer.specs.Policy.{policy_for};
    ghost use Rattle.sequential_signer.specs.declared.event.Event.TheVariants.{Poll, Provided};
    ghost use Rattle.sequential_signer.specs.declared.event.Event.TheVariants.{Signed, Cancel};
    ghost use Rattle.sequential_signer.specs.declared.event.Answer.TheVariants.{Found};
    ghost use Rattle.desk_parts.specs.Queue.{is_held_queue, queue_at};
    ghost use Rattle.desk_parts.specs.Tables.{find_call};
    ghost use Rattle.desk_parts.specs.Places.{HasPlaces};
    ghost use Rattle.desk_parts.specs.HoldProgress.{desk_lookup, desk_load, next_load};
    ghost use Rattle.desk_parts.specs.declared.call_record.Stage.TheVariants.{Loading};
    ghost use Rattle.sign_desk.specs.StepPrecondition.{StepPrecondition, IsPlaced};
    ghost use Rattle.sign_desk.specs.HoldAction.{hold_action, loading_hold};
    ghost use Rattle.sign_desk.specs.Transition.{action_of, first_poll_action};
    ghost use Rattle.sign_desk.specs.Transition.{later_poll_action, load_action, accept_action};
    ghost use Rattle.sign_desk.specs.Previews.{Previews};
    ghost use Rattle.desk_parts.specs.Memory.{ClonesAreFree};
    ghost use Rattle.sign_desk.specs.Memory.{RunsOutAtHeads};
    ghost use Rattle.sequential_signer.specs.declared.event.Reply.TheVariants.{OutOfMemory};

    pub fn preview(&self, event: &Event<K>) -> Reply<K>
        requires { StepPrecondition self.now }
        ensures done { Previews
            (action_of (policy_for K.SigningCredential D.DeadlineRule) self.now event.now) result }
        ensures memory { ClonesAreFree K.clones_freely → RunsOutAtHeads event.now result }
    {
        match event {
            Event::Begin { call, .. } => {
                if self.tables.begin_fits(*call) {
                    Reply::Begun
                } else {
                    Reply::NotNow
                }
            }
            Event::Poll { call, now } => self.preview_poll(*call, *now),
            Event::Provided { call, now, answer } => self.preview_provided(*call, *now, answer),
            Event::Signed { call, answer } => self.preview_signed(*call, answer),
            Event::Cancel { call } => self.preview_cancel(*call),
        }
    }

    fn preview_poll(&self, call: CallId, now: Timestamp) -> Reply<K>
        requires { StepPrecondition self.now }
        ensures done { Previews
            (action_of (policy_for K.SigningCredential D.DeadlineRule) self.now (Poll call now)) result }
        ensures memory { ClonesAreFree K.clones_freely → result ≢ OutOfMemory }
    {
        let Some(view) = self.find(call) else {
            return Reply::NotNow;
        };
        match view.stage {
            Stage::Unpolled => self.preview_first_poll(view, now),
            Stage::Queued => self.preview_later_poll(view, now),
            Stage::Loading | Stage::Signing => Reply::Pending,
        }
    }

    fn preview_first_poll(&self, view: LiveCallView, now: Timestamp) -> Reply<K>
        requires { IsPlaced self.now view }
        ensures done { Previews
            (first_poll_action self.now view (is_held_queue (queue_at view.cache self.now.queues))
            (desk_lookup (policy_for K.SigningCredential D.DeadlineRule) self.now now view))
            result }
        ensures memory { ClonesAreFree K.clones_freely → result ≢ OutOfMemory }
    {
        if self.tables.is_held(view.cache) {
            return Reply::Pending;
        }
        match self.tables.look(view, now) {
            Lookup::OutOfMemory => Reply::OutOfMemory,
            Lookup::Miss => Reply::Ask { provider: 0 },
            Lookup::Hit(credential) => Reply::Sign {
                credential,
                wake: None,
            },
            Lookup::Refused(why) => Reply::Refused { why, wake: None },
        }
    }

    fn preview_later_poll(&self, view: LiveCallView, now: Timestamp) -> Reply<K>
        requires { IsPlaced self.now view }
        ensures done { Previews
            (later_poll_action self.now view (is_first view.call (queue_at view.cache self.now.queues))
            (desk_lookup (policy_for K.SigningCredential D.DeadlineRule) self.now now view))
            result }
        ensures memory { ClonesAreFree K.clones_freely → result ≢ OutOfMemory }
    {
        if !self.tables.is_held_by(view.cache, view.call) {
            return Reply::Pending;
        }
        let wake = self.tables.next_after(view.cache, view.call);
        match self.tables.look(view, now) {
            Lookup::OutOfMemory => Reply::OutOfMemory,
            Lookup::Miss => Reply::Ask { provider: 0 },
            Lookup::Hit(credential) => Reply::Sign { credential, wake },
            Lookup::Refused(why) => Reply::Refused { why, wake },
        }
    }

    fn preview_provided(&self, call: CallId, now: Timestamp, answer: &Answer<K>) -> Reply<K>
        requires { StepPrecondition self.now }
        ensures done { Previews
            (action_of (policy_for K.SigningCredential D.DeadlineRule) self.now
            (Provided call now answer.now)) result }
        ensures memory { ClonesAreFree K.clones_freely → result ≢ OutOfMemory }
    {
        let Some(view) = self.find(call) else {
            return Reply::NotNow;
        };
        match view.stage {
            Stage::Loading => self.preview_load(view, now, answer),
            Stage::Unpolled | Stage::Queued | Stage::Signing => Reply::NotNow,
        }
    }

    fn preview_load(&self, view: LiveCallView, now: Timestamp, answer: &Answer<K>) -> Reply<K>
        requires placed { IsPlaced self.now view }
        requires loading { view.stage ≡ Loading }
        ensures done { Previews
            (load_action (policy_for K.SigningCredential D.DeadlineRule) self.now now answer.now view)
            result }
        ensures memory { ClonesAreFree K.clones_freely → result ≢ OutOfMemory }
    {
        let view = self.tables.with_answer(view);
        match answer {
            Answer::Found(found) => self.preview_found(view, now, found),
            Answer::Missing => self.preview_next_or_refuse(view, Why::Missing),
            Answer::Failed(e) => self.preview_next_or_refuse(view, Why::Loader(*e)),
        }
    }

    fn preview_found(&self, view: LiveCallView, now: Timestamp, found: &K) -> Reply<K>
        requires { HasPlaces self.now view.cache view.rule }
        ensures done { Previews (hold_action (loading_hold self.now view) view
            (desk_load (policy_for K.SigningCredential D.DeadlineRule) self.now now view (Found found.now)))
            result }
        ensures memory { ClonesAreFree K.clones_freely → result ≢ OutOfMemory }
    {
        let wake = self.tables.next_after(view.cache, view.call);
        if let Err(why) = self.tables.check(view, now, found) {
            return Reply::Refused { why, wake };
        }
        match found.try_clone(self.tables.alloc()) {
            Ok(credential) => Reply::Sign { credential, wake },
            Err(_) => Reply::OutOfMemory,
        }
    }

    fn preview_next_or_refuse(&self, view: LiveCallView, single: Why) -> Reply<K>
        requires { HasPlaces self.now view.cache view.rule }
        ensures done { Previews (hold_action (loading_hold self.now view) view
            (next_load (slice_get self.now.loaders view.cache) view.answers single)) result }
        ensures memory { result ≢ OutOfMemory }
    {
        let wake = self.tables.next_after(view.cache, view.call);
        match self.tables.loader_at(view.cache) {
            Loader::Single => Reply::Refused { why: single, wake },
            Loader::Chain(n) if view.answers < n => Reply::Ask {
                provider: view.answers,
            },
            Loader::Chain(_) => Reply::Refused {
                why: Why::Missing,
                wake,
            },
        }
    }

    fn preview_signed(&self, call: CallId, answer: &Verdict) -> Reply<K>
        requires { StepPrecondition self.now }
        ensures done { Previews
            (action_of (policy_for K.SigningCredential D.DeadlineRule) self.now (Signed call answer.now))
            result }
        ensures memory { RunsOutAtHeads (Signed call answer.now) result }
    {
        let Some(view) = self.find(call) else {
            return Reply::NotNow;
        };
        match (view.stage, answer) {
            (Stage::Signing, Verdict::Accepted(candidate)) => self.preview_accept(call, candidate),
            (Stage::Signing, Verdict::Failed(e)) => Reply::Refused {
                why: Why::Service(*e),
                wake: None,
            },
            (Stage::Unpolled | Stage::Queued | Stage::Loading, _) => Reply::NotNow,
        }
    }

    fn preview_accept(&self, call: CallId, candidate: &Head) -> Reply<K>
        requires { IsSome (find_call call self.now.calls) }
        ensures { Previews (accept_action self.now candidate.now (find_call call self.now.calls)) result }
    {
        let live = self.tables.record_of(call).unwrap();
        match done_copy(self.tables.alloc(), live.head.as_head(), candidate) {
            Ok(head) => Reply::Done { head },
            Err(_) => Reply::OutOfMemory,
        }
    }

    fn preview_cancel(&self, call: CallId) -> Reply<K>
        requires { StepPrecondition self.now }
        ensures done { Previews
            (action_of (policy_for K.SigningCredential D.DeadlineRule) self.now (Cancel call)) result }
        ensures memory { result ≢ OutOfMemory }
    {
        let Some(view) = self.find(call) else {
            return Reply::NotNow;
        };
        let wake = match view.stage {
            Stage::Queued | Stage::Loading => self.tables.next_after(view.cache, call),
            Stage::Unpolled | Stage::Signing => None,
        };
        Reply::Cancelled { wake }
    }
}

/// The begun head with the URI and the headers of an accepted one.
fn done_copy(alloc: Global, begun: &Head, candidate: &Head) -> Result<Head, NoMemory<()>>
    ensures { IfOk result
        (λ h. h ≡ record begun.now { uri = candidate.now.uri; headers = candidate.now.headers }) }
{
    Ok(Head {
        method: begun.method.try_clone(alloc)?,
        uri: candidate.uri.try_clone(alloc)?,
        version: begun.version,
        headers: candidate.headers.try_clone(alloc)?,
    })
}
