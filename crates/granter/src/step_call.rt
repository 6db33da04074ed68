//! One step of a call: the desk is polled, or the object that was asked, whose answer goes to the desk.
ghost use Rattle.std.specs.Prelude.{◌≡◌, Some, IsSome};
ghost use Rattle.desk_driver.specs.CallAt.{loader_of, service_of};
ghost use Rattle.desk_driver.specs.ProviderList.{loader_for};
ghost use Rattle.granter.specs.PollContext.{poll_context, IsIssuedFor, IsOutcomeWith};
ghost use Rattle.granter.specs.declared.grant.CallState.TheVariants.{Loading, Granting};

use crate::call_objects::CallObjects;
use crate::drive::{
    poll_call, report_failed_grant, report_failed_load, report_found, report_made, report_missing,
};
use crate::grant::{CallState, WorkState};
use crate::granter_objects::poll_service;
use crate::object_answer::WorkAnswer;
use crate::refusal::GrantRefusal;
use crate::step_outcome::{StepEnd, StepFlow};
use crate::step_reply::{after_found, after_made, after_none, after_poll};
use credentials::{GrantCredential, ProvideCredential};
use desk_driver::{BegunCall, LoadAnswer, LoadState, poll_provider, provider_at};
use grant_desk::GrantDesk;
use sequential_signer::SigningCredential;
use sign_base::Timestamp;

/// One step of a call in this state.
pub(crate) fn step<P, G>(
    desk: &mut GrantDesk<P::Credential, G>,
    objects: &CallObjects<'_, P, P::Ctx>,
    begun: &BegunCall<()>,
    now: Timestamp,
    state: CallState<P::Credential, P::Load, G::Work>,
) -> StepFlow<P::Credential, P::Load, G::Work>
where
    P: ProvideCredential,
    P::Credential: SigningCredential,
    G: GrantCredential<Credential = P::Credential, Ctx = P::Ctx>,
    requires there { IsSome (service_of desk.old begun.now.id.handle) }
    requires loads { loader_of desk.old begun.now.id.handle ≡ Some (loader_for objects.now.providers.now) }
    requires issued { IsIssuedFor (poll_context P.Credential.SigningCredential P.ProvideCredential
        G.DeadlineRule G.GrantCredential.own objects.now begun.now now) desk.old state }
    ensures { IsOutcomeWith (poll_context P.Credential.SigningCredential P.ProvideCredential
        G.DeadlineRule G.GrantCredential.own objects.now begun.now now) state
        (record { old = desk.old; new = desk.new }) result }
{
    match state {
        CallState::Waiting => after_poll(poll_call(desk, begun, now)),
        CallState::Loading(provider, load) => {
            step_loading(desk, objects, begun, now, provider, load)
        }
        CallState::Granting(source, work) => {
            step_granting(desk, objects, begun, now, source, work)
        }
    }
}

/// The provider that was asked is polled.
fn step_loading<P, G>(
    desk: &mut GrantDesk<P::Credential, G>,
    objects: &CallObjects<'_, P, P::Ctx>,
    begun: &BegunCall<()>,
    now: Timestamp,
    provider: u32,
    load: LoadState<P::Credential, P::Load>,
) -> StepFlow<P::Credential, P::Load, G::Work>
where
    P: ProvideCredential,
    P::Credential: SigningCredential,
    G: GrantCredential<Credential = P::Credential, Ctx = P::Ctx>,
    requires there { IsSome (service_of desk.old begun.now.id.handle) }
    requires loads { loader_of desk.old begun.now.id.handle ≡ Some (loader_for objects.now.providers.now) }
    requires issued { IsIssuedFor (poll_context P.Credential.SigningCredential P.ProvideCredential
        G.DeadlineRule G.GrantCredential.own objects.now begun.now now) desk.old (Loading provider load) }
    ensures { IsOutcomeWith (poll_context P.Credential.SigningCredential P.ProvideCredential
        G.DeadlineRule G.GrantCredential.own objects.now begun.now now) (Loading provider load)
        (record { old = desk.old; new = desk.new }) result }
{
    let asked = provider_at(objects.providers, provider).unwrap();
    match poll_provider(objects.alloc, asked, objects.ctx, load) {
        LoadAnswer::Pending(load) => {
            let state = CallState::Loading(provider, LoadState::Started(load));
            StepFlow::Stop(StepEnd::Pending(state))
        }
        LoadAnswer::OutOfMemory(load) => {
            StepFlow::Stop(StepEnd::OutOfMemory(CallState::Loading(provider, load)))
        }
        LoadAnswer::Found(source) => {
            let (reply, found) = report_found(desk, begun, provider, now, source);
            after_found(provider, found, reply)
        }
        LoadAnswer::Missing => {
            after_none(
                GrantRefusal::Missing,
                report_missing(desk, begun, provider, now),
            )
        }
        LoadAnswer::Failed(e) => {
            after_none(
                GrantRefusal::Loader(e),
                report_failed_load(desk, begun, provider, now),
            )
        }
    }
}

/// The service is polled.
fn step_granting<P, G>(
    desk: &mut GrantDesk<P::Credential, G>,
    objects: &CallObjects<'_, P, P::Ctx>,
    begun: &BegunCall<()>,
    now: Timestamp,
    source: P::Credential,
    work: WorkState<P::Credential, G::Work>,
) -> StepFlow<P::Credential, P::Load, G::Work>
where
    P: ProvideCredential,
    P::Credential: SigningCredential,
    G: GrantCredential<Credential = P::Credential, Ctx = P::Ctx>,
    requires there { IsSome (service_of desk.old begun.now.id.handle) }
    requires issued { IsIssuedFor (poll_context P.Credential.SigningCredential P.ProvideCredential
        G.DeadlineRule G.GrantCredential.own objects.now begun.now now) desk.old (Granting source work) }
    ensures { IsOutcomeWith (poll_context P.Credential.SigningCredential P.ProvideCredential
        G.DeadlineRule G.GrantCredential.own objects.now begun.now now) (Granting source work)
        (record { old = desk.old; new = desk.new }) result }
{
    let service = desk.rule_of(begun.id.handle).unwrap();
    match poll_service(objects.alloc, service, objects.ctx, begun, &source, work) {
        WorkAnswer::Pending(work) => {
            let state = CallState::Granting(source, WorkState::Started(work));
            StepFlow::Stop(StepEnd::Pending(state))
        }
        WorkAnswer::OutOfMemory(work) => {
            StepFlow::Stop(StepEnd::OutOfMemory(CallState::Granting(source, work)))
        }
        WorkAnswer::Made(credential) => {
            let (reply, made) = report_made(desk, begun, now, credential);
            after_made(source, made, reply)
        }
        WorkAnswer::Failed(e) => {
            report_failed_grant(desk, begun, now);
            StepFlow::Stop(StepEnd::Refused(GrantRefusal::Service(e)))
        }
    }
}
