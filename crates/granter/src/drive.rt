//! The steps that a granter makes of a call. It knows where the call is, so each step has few replies.
ghost use Rattle.std.specs.Prelude.{◌≡◌, IsSome, IfSome, OnOk, OnErr, true, slice_get};
ghost use Rattle.sequential_signer.specs.Policy.{policy_for};
ghost use Rattle.sequential_signer.specs.LiveCall.{is_above};
ghost use Rattle.sequential_signer.specs.declared.event.Answer.TheVariants as answer;
ghost use Rattle.sequential_signer.specs.declared.grant_event.GrantEvent.TheVariants.{Begin, Cancel, Poll};
ghost use Rattle.sequential_signer.specs.declared.grant_event.GrantEvent.TheVariants.{Provided, Granted};
ghost use Rattle.sequential_signer.specs.declared.grant_event.GrantReply.TheVariants.{Begun, Cancelled};
ghost use Rattle.sequential_signer.specs.declared.grant_event.GrantReply.TheVariants.{Refused};
ghost use Rattle.sequential_signer.specs.declared.grant_event.GrantWhy.TheVariants as why;
ghost use Rattle.sequential_signer.specs.declared.grant_event.Made.TheVariants as made;
ghost use Rattle.desk_parts.specs.Memory.{ClonesAreFree};
ghost use Rattle.grant_desk.specs.GrantSteps.{IsGrantStep, RunsOutAtBegins};
ghost use Rattle.desk_driver.specs.CallAt.{IsLive, IsAsking, IsSigning, LeavesOthers};
ghost use Rattle.granter.specs.DeskReplies.{IsUnpolled, IsBegun, AfterPoll, AfterFound, AfterNone, AfterMade};
ghost use Rattle.granter.specs.DeskReplies.{found_in_event, made_in_event};

use desk_driver::BegunCall;
use grant_desk::GrantDesk;
use sequential_signer::{Answer, DeadlineRule, GrantEvent, GrantReply, Made, SigningCredential};
use sign_base::{CallId, NoMemory, Timestamp};
use std::time::Duration;

/// The number of an error in the desk's events. The error itself stays with the granter.
const ERROR: u64 = 0;

/// Begins the call of this name, with a number above all of its handle.
///
/// Where there is no memory, nothing changes.
pub(crate) fn begin_call<K: SigningCredential, D: DeadlineRule<Credential = K>>(
    desk: &mut GrantDesk<K, D>,
    call: CallId,
    expires_in: Option<Duration>,
) -> Result<(), NoMemory<()>>
    requires there { IsSome (slice_get desk.old.handles call.handle) }
    requires above { IfSome (slice_get desk.old.greatest call.handle)
        (λ greatest. is_above call.number greatest ≡ true) }
    ensures step { OnOk result (IsGrantStep (policy_for K.SigningCredential D.DeadlineRule)
        (Begin call expires_in) desk.old Begun desk.new) }
    ensures begun { OnOk result
        (IsBegun (record { id = call; head = tt; expires_in = expires_in }) desk.old desk.new) }
    ensures unchanged { OnErr result (desk.new ≡ desk.old) }
{
    match desk.step(&GrantEvent::Begin { call, expires_in }) {
        GrantReply::Begun => Ok(()),
        _ => Err(NoMemory { back: () }),
    }
}

/// Cancels a live call.
pub(crate) fn cancel_call<K: SigningCredential, D: DeadlineRule<Credential = K>>(
    desk: &mut GrantDesk<K, D>,
    begun: &BegunCall<()>,
)
    requires there { IsSome (slice_get desk.old.handles begun.now.id.handle) }
    requires live { IsLive begun.now desk.old }
    ensures step { IsGrantStep (policy_for K.SigningCredential D.DeadlineRule)
        (Cancel begun.now.id) desk.old Cancelled desk.new }
    ensures others { LeavesOthers begun.now.id desk.old desk.new }
{
    let event = GrantEvent::Cancel { call: begun.id };
    let cancelled = desk.step(&event);
    drop(event);
    drop(cancelled);
}

/// A poll of a call that has not looked at its cache yet.
pub(crate) fn poll_call<K: SigningCredential, D: DeadlineRule<Credential = K>>(
    desk: &mut GrantDesk<K, D>,
    begun: &BegunCall<()>,
    now: Timestamp,
) -> GrantReply<K>
    requires there { IsSome (slice_get desk.old.handles begun.now.id.handle) }
    requires unpolled { IsUnpolled begun.now desk.old }
    ensures step { IsGrantStep (policy_for K.SigningCredential D.DeadlineRule)
        (Poll begun.now.id now) desk.old result desk.new }
    ensures memory { ClonesAreFree K.clones_freely → RunsOutAtBegins (Poll begun.now.id now) result }
    ensures after { AfterPoll begun.now result desk.new }
    ensures others { LeavesOthers begun.now.id desk.old desk.new }
{
    let event = GrantEvent::Poll {
        call: begun.id,
        now,
    };
    let reply = desk.step(&event);
    drop(event);
    reply
}

/// A source that the asked provider found, which is handed back beside the reply.
pub(crate) fn report_found<K: SigningCredential, D: DeadlineRule<Credential = K>>(
    desk: &mut GrantDesk<K, D>,
    begun: &BegunCall<()>,
    provider: u32,
    now: Timestamp,
    source: K,
) -> (GrantReply<K>, K)
    requires there { IsSome (slice_get desk.old.handles begun.now.id.handle) }
    requires asking { IsAsking begun.now provider desk.old }
    ensures step { IsGrantStep (policy_for K.SigningCredential D.DeadlineRule)
        (Provided begun.now.id now (answer.Found source)) desk.old result.0 desk.new }
    ensures memory { ClonesAreFree K.clones_freely
        → RunsOutAtBegins (Provided begun.now.id now (answer.Found source)) result.0 }
    ensures after { AfterFound begun.now provider result.0 desk.new }
    ensures others { LeavesOthers begun.now.id desk.old desk.new }
    ensures back { result.1 ≡ source }
{
    let answer = Answer::Found(source);
    let event = GrantEvent::Provided {
        call: begun.id,
        now,
        answer,
    };
    let reply = desk.step(&event);
    (reply, found_in(event).unwrap())
}

/// The asked provider has no source.
pub(crate) fn report_missing<K: SigningCredential, D: DeadlineRule<Credential = K>>(
    desk: &mut GrantDesk<K, D>,
    begun: &BegunCall<()>,
    provider: u32,
    now: Timestamp,
) -> GrantReply<K>
    requires there { IsSome (slice_get desk.old.handles begun.now.id.handle) }
    requires asking { IsAsking begun.now provider desk.old }
    ensures step { IsGrantStep (policy_for K.SigningCredential D.DeadlineRule)
        (Provided begun.now.id now answer.Missing) desk.old result desk.new }
    ensures after { AfterNone begun.now provider why.Missing result desk.new }
    ensures others { LeavesOthers begun.now.id desk.old desk.new }
{
    let event = GrantEvent::Provided {
        call: begun.id,
        now,
        answer: Answer::Missing,
    };
    let reply = desk.step(&event);
    drop(event);
    reply
}

/// The asked provider failed.
pub(crate) fn report_failed_load<K: SigningCredential, D: DeadlineRule<Credential = K>>(
    desk: &mut GrantDesk<K, D>,
    begun: &BegunCall<()>,
    provider: u32,
    now: Timestamp,
) -> GrantReply<K>
    requires there { IsSome (slice_get desk.old.handles begun.now.id.handle) }
    requires asking { IsAsking begun.now provider desk.old }
    ensures step { IsGrantStep (policy_for K.SigningCredential D.DeadlineRule)
        (Provided begun.now.id now (answer.Failed ERROR)) desk.old result desk.new }
    ensures after { AfterNone begun.now provider (why.Loader ERROR) result desk.new }
    ensures others { LeavesOthers begun.now.id desk.old desk.new }
{
    let event = GrantEvent::Provided {
        call: begun.id,
        now,
        answer: Answer::Failed(ERROR),
    };
    let reply = desk.step(&event);
    drop(event);
    reply
}

/// The service made this credential, which is handed back beside the reply.
pub(crate) fn report_made<K: SigningCredential, D: DeadlineRule<Credential = K>>(
    desk: &mut GrantDesk<K, D>,
    begun: &BegunCall<()>,
    now: Timestamp,
    credential: K,
) -> (GrantReply<K>, K)
    requires there { IsSome (slice_get desk.old.handles begun.now.id.handle) }
    requires granting { IsSigning begun.now desk.old }
    ensures step { IsGrantStep (policy_for K.SigningCredential D.DeadlineRule)
        (Granted begun.now.id now (made.Made credential)) desk.old result.0 desk.new }
    ensures memory { ClonesAreFree K.clones_freely
        → RunsOutAtBegins (Granted begun.now.id now (made.Made credential)) result.0 }
    ensures after { AfterMade begun.now now credential result.0 desk.new }
    ensures others { LeavesOthers begun.now.id desk.old desk.new }
    ensures back { result.1 ≡ credential }
{
    let answer = Made::Made(credential);
    let event = GrantEvent::Granted {
        call: begun.id,
        now,
        answer,
    };
    let reply = desk.step(&event);
    (reply, made_in(event).unwrap())
}

/// The service failed.
pub(crate) fn report_failed_grant<K: SigningCredential, D: DeadlineRule<Credential = K>>(
    desk: &mut GrantDesk<K, D>,
    begun: &BegunCall<()>,
    now: Timestamp,
)
    requires there { IsSome (slice_get desk.old.handles begun.now.id.handle) }
    requires granting { IsSigning begun.now desk.old }
    ensures step { IsGrantStep (policy_for K.SigningCredential D.DeadlineRule)
        (Granted begun.now.id now (made.Failed ERROR)) desk.old (Refused (why.Service ERROR)) desk.new }
    ensures others { LeavesOthers begun.now.id desk.old desk.new }
{
    let event = GrantEvent::Granted {
        call: begun.id,
        now,
        answer: Made::Failed(ERROR),
    };
    let refused = desk.step(&event);
    drop(event);
    drop(refused);
}

/// The source that a provider found.
fn found_in<K: Drop>(event: GrantEvent<K>) -> Option<K>
    ensures { result ≡ found_in_event event }
{
    match event {
        GrantEvent::Provided {
            answer: Answer::Found(source),
            ..
        } => Some(source),
        _ => None,
    }
}

/// The credential that a service made.
fn made_in<K: Drop>(event: GrantEvent<K>) -> Option<K>
    ensures { result ≡ made_in_event event }
{
    match event {
        GrantEvent::Granted {
            answer: Made::Made(credential),
            ..
        } => Some(credential),
        _ => None,
    }
}
