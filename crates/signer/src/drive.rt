//! The steps that a signer makes of a call. It knows where the call is, so each step has few replies.
ghost use Rattle.std.specs.Prelude.{◌≡◌, ◌⊎◌, IsSome, IfOk, IfErr, IfSome, OnOk, OnErr, None, true};
ghost use Rattle.std.specs.Prelude.{slice_get};
ghost use Rattle.sequential_signer.specs.Policy.{policy_for};
ghost use Rattle.sequential_signer.specs.declared.event.Answer.TheVariants as answer;
ghost use Rattle.sequential_signer.specs.declared.event.Event.TheVariants.{Begin, Cancel, Poll, Provided};
ghost use Rattle.sequential_signer.specs.declared.event.Event.TheVariants.{Signed};
ghost use Rattle.sequential_signer.specs.declared.event.Reply.TheVariants.{Begun, Cancelled, Refused};
ghost use Rattle.sequential_signer.specs.declared.event.Verdict.TheVariants as verdict;
ghost use Rattle.sequential_signer.specs.declared.event.Why.TheVariants as why;
ghost use Rattle.sign_desk.specs.Steps.{IsStep};
ghost use Rattle.sign_request.specs.PlainHead.{IsHeadOf, IsUnknownVersion};
ghost use Rattle.sign_request.specs.Refusal.{IsOutOfMemory, RefusedFor, unknown_version};
ghost use Rattle.desk_parts.specs.Memory.{ClonesAreFree};
ghost use Rattle.sign_desk.specs.Memory.{RunsOutAtHeads};
ghost use Rattle.desk_driver.specs.CallAt.{IsLive, IsWaiting, IsAsking, IsSigning, LeavesOthers};
ghost use Rattle.signer.specs.DeskReplies.{IsBegun, AfterPoll, AfterFound, AfterNone, AfterAccepted};
ghost use Rattle.signer.specs.DeskReplies.{begun_in_event, found_in_event, found_in_answer};
ghost use Rattle.signer.specs.DeskReplies.{accepted_in_event, accepted_in_verdict};
ghost use Rattle.sequential_signer.specs.LiveCall.{is_above};

use desk_driver::BegunCall;
use http::request::Parts;
use sequential_signer::{Answer, DeadlineRule, Event, Reply, SigningCredential, Verdict};
use sign_base::{CallId, Error, Head, NoMemory, Timestamp};
use sign_desk::Desk;
use sign_request::head_of;
use std::alloc::Global;
use std::time::Duration;

/// The number of an error in the desk's events. The error itself stays with the signer.
const ERROR: u64 = 0;

/// Begins the call of this name with the head of the request, and hands out a copy of it for the service.
/// An error begins nothing.
pub(crate) fn begin_request<K: SigningCredential, D: DeadlineRule<Credential = K>>(
    desk: &mut Desk<K, D>,
    alloc: Global,
    call: CallId,
    req: &Parts,
    expires_in: Option<Duration>,
) -> Result<(BegunCall<Head>, Head), Error>
    requires there { IsSome (slice_get desk.old.handles call.handle) }
    requires above { IfSome (slice_get desk.old.greatest call.handle)
        (λ greatest. is_above call.number greatest ≡ true) }
    ensures named { IfOk result (λ r. (r.0.id ≡ call) × (r.0.expires_in ≡ expires_in)) }
    ensures head { IfOk result (λ r. IsHeadOf req.now r.0.head × (r.1 ≡ r.0.head)) }
    ensures step { IfOk result (λ r. IsStep (policy_for K.SigningCredential D.DeadlineRule)
        (Begin r.0.id r.0.head r.0.expires_in) desk.old Begun desk.new) }
    ensures begun { IfOk result (λ r. IsBegun r.0 desk.old desk.new) }
    ensures err { IfErr result (λ e. IsOutOfMemory e
        ⊎ RefusedFor unknown_version (IsUnknownVersion req.now.version) e) }
    ensures unchanged { OnErr result (desk.new ≡ desk.old) }
{
    let head = head_of(alloc, req)?;
    let candidate = head.try_clone(alloc)?;
    let head = begin_call(desk, call, head, expires_in)?;
    let begun = BegunCall {
        id: call,
        head,
        expires_in,
    };
    Ok((begun, candidate))
}

/// Begins the call of this name. The head is handed back.
///
/// Where there is no memory, nothing changes.
fn begin_call<K: SigningCredential, D: DeadlineRule<Credential = K>>(
    desk: &mut Desk<K, D>,
    call: CallId,
    head: Head,
    expires_in: Option<Duration>,
) -> Result<Head, NoMemory<()>>
    requires there { IsSome (slice_get desk.old.handles call.handle) }
    requires above { IfSome (slice_get desk.old.greatest call.handle)
        (λ greatest. is_above call.number greatest ≡ true) }
    ensures back { IfOk result (λ back. back ≡ head) }
    ensures step { OnOk result (IsStep (policy_for K.SigningCredential D.DeadlineRule)
        (Begin call head expires_in) desk.old Begun desk.new) }
    ensures begun { OnOk result
        (IsBegun (record { id = call; head = head; expires_in = expires_in }) desk.old desk.new) }
    ensures unchanged { OnErr result (desk.new ≡ desk.old) }
{
    let event = Event::Begin {
        call,
        head,
        expires_in,
    };
    let reply = desk.step(&event);
    let head = begun_in(event).unwrap();
    match reply {
        Reply::Begun => Ok(head),
        _ => Err(NoMemory { back: () }),
    }
}

/// Cancels a live call, and names the one that has its turn by this.
pub(crate) fn cancel_call<K: SigningCredential, D: DeadlineRule<Credential = K>>(
    desk: &mut Desk<K, D>,
    begun: &BegunCall<Head>,
) -> Option<CallId>
    requires there { IsSome (slice_get desk.old.handles begun.now.id.handle) }
    requires live { IsLive begun.now desk.old }
    ensures step { IsStep (policy_for K.SigningCredential D.DeadlineRule)
        (Cancel begun.now.id) desk.old (Cancelled result) desk.new }
    ensures others { LeavesOthers begun.now.id desk.old desk.new }
{
    let event = Event::Cancel { call: begun.id };
    let reply = desk.step(&event);
    drop(event);
    match reply {
        Reply::Cancelled { wake } => wake,
        _ => unreachable!(),
    }
}

/// A poll of a call that waits.
pub(crate) fn poll_call<K: SigningCredential, D: DeadlineRule<Credential = K>>(
    desk: &mut Desk<K, D>,
    begun: &BegunCall<Head>,
    now: Timestamp,
) -> Reply<K>
    requires there { IsSome (slice_get desk.old.handles begun.now.id.handle) }
    requires waiting { IsWaiting begun.now desk.old }
    ensures step { IsStep (policy_for K.SigningCredential D.DeadlineRule)
        (Poll begun.now.id now) desk.old result desk.new }
    ensures memory { ClonesAreFree K.clones_freely → RunsOutAtHeads (Poll begun.now.id now) result }
    ensures after { AfterPoll begun.now result desk.new }
    ensures others { LeavesOthers begun.now.id desk.old desk.new }
{
    let event = Event::Poll {
        call: begun.id,
        now,
    };
    let reply = desk.step(&event);
    drop(event);
    reply
}

/// A credential that the asked provider found, which is handed back beside the reply.
pub(crate) fn report_found<K: SigningCredential, D: DeadlineRule<Credential = K>>(
    desk: &mut Desk<K, D>,
    begun: &BegunCall<Head>,
    provider: u32,
    now: Timestamp,
    credential: K,
) -> (Reply<K>, K)
    requires there { IsSome (slice_get desk.old.handles begun.now.id.handle) }
    requires asking { IsAsking begun.now provider desk.old }
    ensures step { IsStep (policy_for K.SigningCredential D.DeadlineRule)
        (Provided begun.now.id now (answer.Found credential)) desk.old result.0 desk.new }
    ensures memory { ClonesAreFree K.clones_freely
        → RunsOutAtHeads (Provided begun.now.id now (answer.Found credential)) result.0 }
    ensures after { AfterFound begun.now provider result.0 desk.new }
    ensures others { LeavesOthers begun.now.id desk.old desk.new }
    ensures back { result.1 ≡ credential }
{
    let answer = Answer::Found(credential);
    let event = Event::Provided {
        call: begun.id,
        now,
        answer,
    };
    let reply = desk.step(&event);
    (reply, found_in(event).unwrap())
}

/// The asked provider has no credential.
pub(crate) fn report_missing<K: SigningCredential, D: DeadlineRule<Credential = K>>(
    desk: &mut Desk<K, D>,
    begun: &BegunCall<Head>,
    provider: u32,
    now: Timestamp,
) -> Reply<K>
    requires there { IsSome (slice_get desk.old.handles begun.now.id.handle) }
    requires asking { IsAsking begun.now provider desk.old }
    ensures step { IsStep (policy_for K.SigningCredential D.DeadlineRule)
        (Provided begun.now.id now answer.Missing) desk.old result desk.new }
    ensures after { AfterNone begun.now provider why.Missing result desk.new }
    ensures others { LeavesOthers begun.now.id desk.old desk.new }
{
    let event = Event::Provided {
        call: begun.id,
        now,
        answer: Answer::Missing,
    };
    let reply = desk.step(&event);
    drop(event);
    reply
}

/// The asked provider failed.
pub(crate) fn report_failed_load<K: SigningCredential, D: DeadlineRule<Credential = K>>(
    desk: &mut Desk<K, D>,
    begun: &BegunCall<Head>,
    provider: u32,
    now: Timestamp,
) -> Reply<K>
    requires there { IsSome (slice_get desk.old.handles begun.now.id.handle) }
    requires asking { IsAsking begun.now provider desk.old }
    ensures step { IsStep (policy_for K.SigningCredential D.DeadlineRule)
        (Provided begun.now.id now (answer.Failed ERROR)) desk.old result desk.new }
    ensures after { AfterNone begun.now provider (why.Loader ERROR) result desk.new }
    ensures others { LeavesOthers begun.now.id desk.old desk.new }
{
    let event = Event::Provided {
        call: begun.id,
        now,
        answer: Answer::Failed(ERROR),
    };
    let reply = desk.step(&event);
    drop(event);
    reply
}

/// The service signed this head, which is handed back beside the reply.
pub(crate) fn report_signed<K: SigningCredential, D: DeadlineRule<Credential = K>>(
    desk: &mut Desk<K, D>,
    begun: &BegunCall<Head>,
    candidate: Head,
) -> (Reply<K>, Head)
    requires there { IsSome (slice_get desk.old.handles begun.now.id.handle) }
    requires signing { IsSigning begun.now desk.old }
    ensures step { IsStep (policy_for K.SigningCredential D.DeadlineRule)
        (Signed begun.now.id (verdict.Accepted candidate)) desk.old result.0 desk.new }
    ensures after { AfterAccepted begun.now result.0 desk.new }
    ensures others { LeavesOthers begun.now.id desk.old desk.new }
    ensures back { result.1 ≡ candidate }
{
    let event = Event::Signed {
        call: begun.id,
        answer: Verdict::Accepted(candidate),
    };
    let reply = desk.step(&event);
    (reply, accepted_in(event).unwrap())
}

/// The service failed.
pub(crate) fn report_failed_sign<K: SigningCredential, D: DeadlineRule<Credential = K>>(
    desk: &mut Desk<K, D>,
    begun: &BegunCall<Head>,
)
    requires there { IsSome (slice_get desk.old.handles begun.now.id.handle) }
    requires signing { IsSigning begun.now desk.old }
    ensures step { IsStep (policy_for K.SigningCredential D.DeadlineRule)
        (Signed begun.now.id (verdict.Failed ERROR)) desk.old (Refused (why.Service ERROR) None) desk.new }
    ensures others { LeavesOthers begun.now.id desk.old desk.new }
{
    let event = Event::Signed {
        call: begun.id,
        answer: Verdict::Failed(ERROR),
    };
    let refused = desk.step(&event);
    drop(event);
    drop(refused);
}

/// The head that a call began with.
fn begun_in<K: Drop>(event: Event<K>) -> Option<Head>
    ensures { result ≡ begun_in_event event }
{
    match event {
        Event::Begin { head, .. } => Some(head),
        _ => None,
    }
}

/// The credential that a provider found.
fn found_in<K: Drop>(event: Event<K>) -> Option<K>
    ensures { result ≡ found_in_event event }
{
    match event {
        Event::Provided { answer, .. } => found(answer),
        _ => None,
    }
}

fn found<K: Drop>(answer: Answer<K>) -> Option<K>
    ensures { result ≡ found_in_answer answer }
{
    match answer {
        Answer::Found(credential) => Some(credential),
        Answer::Missing | Answer::Failed(_) => None,
    }
}

/// The head that a service signed.
fn accepted_in<K: Drop>(event: Event<K>) -> Option<Head>
    ensures { result ≡ accepted_in_event event }
{
    match event {
        Event::Signed { answer, .. } => accepted(answer),
        _ => None,
    }
}

fn accepted(answer: Verdict) -> Option<Head>
    ensures { result ≡ accepted_in_verdict answer }
{
    match answer {
        Verdict::Accepted(candidate) => Some(candidate),
        Verdict::Failed(_) => None,
    }
}
