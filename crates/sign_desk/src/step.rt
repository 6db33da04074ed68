//! One event: it finds its call, and does what the call's stage lets it do. What can run out of
//! memory is taken before anything changes.
ghost use Rattle.std.specs.Prelude.{◌≡◌, ◌≢◌, true, IsSome, IfOk};

use crate::boxed_head::BoxedHead;
use crate::state::State;
use desk_parts::{CallRecord, Stage};
use sequential_signer::{DeadlineRule, Event, Reply, SigningCredential, Verdict, Why};
use sign_base::{CallId, Fields, Head, NoMemory, Octets};
use std::alloc::Global;
use std::time::Duration;

impl<K: SigningCredential, D: DeadlineRule<Credential = K>> State<K, D> {
    ghost use Rattle.sequential_signer.specs.Policy.{policy_for};
    ghost use Rattle.sequential_signer.specs.declared.event.Event.TheVariants.{Begin, Signed, Cancel};
    ghost use Rattle.desk_parts.specs.Begin.{can_begin};
    ghost use Rattle.desk_parts.specs.Tables.{find_call};
    ghost use Rattle.sign_desk.specs.StepPrecondition.{StepPrecondition};
    ghost use Rattle.sign_desk.specs.Action.{Performs};
    ghost use Rattle.desk_parts.specs.Memory.{ClonesAreFree};
    ghost use Rattle.sign_desk.specs.Memory.{RunsOutAtHeads};
    ghost use Rattle.sequential_signer.specs.declared.event.Reply.TheVariants.{OutOfMemory};
    ghost use Rattle.sign_desk.specs.Transition.{accept_action, Transition};

    /// The event is lent: of what is kept of it, a copy is made.
    pub fn step(&mut self, event: &Event<K>) -> Reply<K>
        requires { StepPrecondition self.old }
        ensures done { Transition (policy_for K.SigningCredential D.DeadlineRule)
            event.now self.old result self.new }
        ensures memory { ClonesAreFree K.clones_freely → RunsOutAtHeads event.now result }
    {
        match event {
            Event::Begin {
                call,
                head,
                expires_in,
            } => self.begin(*call, head, *expires_in),
            Event::Poll { call, now } => self.poll(*call, *now),
            Event::Provided { call, now, answer } => self.provided(*call, *now, answer),
            Event::Signed { call, answer } => self.signed(*call, answer),
            Event::Cancel { call } => self.cancel(*call),
        }
    }

    fn begin(&mut self, call: CallId, head: &Head, expires_in: Option<Duration>) -> Reply<K>
        requires { StepPrecondition self.old }
        ensures { Transition (policy_for K.SigningCredential D.DeadlineRule) (Begin call head.now expires_in)
            self.old result self.new }
    {
        if !self.tables.begin_fits(call) {
            return Reply::NotNow;
        }
        match head.try_clone(self.tables.alloc()) {
            Ok(head) => self.keep_call(call, head, expires_in),
            Err(_) => Reply::OutOfMemory,
        }
    }

    pub(crate) fn take_begin(
        &mut self,
        call: CallId,
        head: Head,
        expires_in: Option<Duration>,
    ) -> Reply<K>
        requires { StepPrecondition self.old }
        ensures { Transition (policy_for K.SigningCredential D.DeadlineRule) (Begin call head expires_in)
            self.old result self.new }
    {
        if !self.tables.begin_fits(call) {
            return Reply::NotNow;
        }
        self.keep_call(call, head, expires_in)
    }

    /// A begin that fits: the call's place and its record are taken at once, or nothing is.
    fn keep_call(&mut self, call: CallId, head: Head, expires_in: Option<Duration>) -> Reply<K>
        requires sound { StepPrecondition self.old }
        requires fits { can_begin self.old call ≡ true }
        ensures { Transition (policy_for K.SigningCredential D.DeadlineRule) (Begin call head expires_in)
            self.old result self.new }
    {
        let Ok(head) = BoxedHead::new(self.tables.alloc(), head) else {
            return Reply::OutOfMemory;
        };
        let live = CallRecord {
            stage: Stage::Unpolled,
            head,
            expires_in,
            answers: 0,
        };
        match self.tables.insert_call(call, live) {
            Ok(()) => Reply::Begun,
            Err(_) => Reply::OutOfMemory,
        }
    }

    fn signed(&mut self, call: CallId, answer: &Verdict) -> Reply<K>
        requires { StepPrecondition self.old }
        ensures done { Transition (policy_for K.SigningCredential D.DeadlineRule) (Signed call answer.now)
            self.old result self.new }
        ensures memory { RunsOutAtHeads (Signed call answer.now) result }
    {
        let Some(view) = self.find(call) else {
            return Reply::NotNow;
        };
        match (view.stage, answer) {
            (Stage::Signing, Verdict::Accepted(candidate)) => self.accept(call, candidate),
            (Stage::Signing, Verdict::Failed(e)) => self.refuse(call, Why::Service(*e), None),
            (Stage::Unpolled | Stage::Queued | Stage::Loading, _) => Reply::NotNow,
        }
    }

    /// An accepted head, which is lent: its URI and its headers are copied before anything changes.
    fn accept(&mut self, call: CallId, candidate: &Head) -> Reply<K>
        requires { IsSome (find_call call self.old.calls) }
        ensures { Performs (accept_action self.old candidate.now (find_call call self.old.calls))
            call self.old result self.new }
    {
        match target_copy(self.tables.alloc(), candidate) {
            Ok((uri, headers)) => self.accept_with(call, uri, headers),
            Err(_) => Reply::OutOfMemory,
        }
    }

    /// The URI and the headers of an accepted head: the call is done.
    pub(crate) fn accept_with(&mut self, call: CallId, uri: Octets, headers: Fields) -> Reply<K>
        requires { IsSome (find_call call self.old.calls) }
        ensures done { (candidate : Head) → candidate.uri ≡ uri → candidate.headers ≡ headers
            → Performs (accept_action self.old candidate (find_call call self.old.calls))
            call self.old result self.new }
        ensures memory { result ≢ OutOfMemory }
    {
        let live = self.tables.take_record(call).unwrap();
        let mut head = live.head.into_head();
        head.uri = uri;
        head.headers = headers;
        Reply::Done { head }
    }

    /// The call is over. Where it was in line, it leaves, and the next is woken.
    pub(crate) fn cancel(&mut self, call: CallId) -> Reply<K>
        requires { StepPrecondition self.old }
        ensures done { Transition (policy_for K.SigningCredential D.DeadlineRule)
            (Cancel call) self.old result self.new }
        ensures memory { result ≢ OutOfMemory }
    {
        let Some(view) = self.find(call) else {
            return Reply::NotNow;
        };
        let wake = match view.stage {
            Stage::Unpolled => {
                self.tables.release_place(view.cache);
                None
            }
            Stage::Queued | Stage::Loading => self.tables.leave(view.cache, call),
            Stage::Signing => None,
        };
        self.tables.end_call(call);
        Reply::Cancelled { wake }
    }
}

fn target_copy(alloc: Global, head: &Head) -> Result<(Octets, Fields), NoMemory<()>>
    ensures { IfOk result (λ r. r ≡ (head.now.uri, head.now.headers)) }
{
    Ok((head.uri.try_clone(alloc)?, head.headers.try_clone(alloc)?))
}
