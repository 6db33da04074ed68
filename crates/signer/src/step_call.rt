//! One step of a call: the desk is polled, or the object that was asked, whose answer goes to the desk.
ghost use Rattle.std.specs.Prelude.{◌≡◌, None, Some, IsSome};
ghost use Rattle.desk_driver.specs.CallAt.{loader_of, service_of};
ghost use Rattle.desk_driver.specs.ProviderList.{loader_for, provider_at};
ghost use Rattle.http.specs.declared.request.Parts.{Parts};
ghost use Rattle.signer.specs.PollContext.{poll_context, IsIssuedFor, IsOutcomeWith};
ghost use Rattle.signer.specs.ObjectAnswer.{KeepsWork};
ghost use Rattle.signer.specs.declared.sign.SignState.TheVariants.{Loading, Signing};
ghost use Rattle.signer.specs.declared.sign.WorkState.{WorkState};
ghost use Rattle.signer.specs.declared.sign.WorkState.TheVariants as work_state;
ghost use Rattle.signer.specs.declared.step_outcome.StepEnd.TheVariants.{OutOfMemory};
ghost use Rattle.signer.specs.declared.step_outcome.StepFlow.TheVariants.{Stop};

use crate::call_objects::CallObjects;
use crate::drive::{
    poll_call, report_failed_load, report_failed_sign, report_found, report_missing,
};
use crate::object_answer::WorkAnswer;
use crate::refusal::Refusal;
use crate::sign::{SignState, WorkState};
use crate::signer_objects::poll_service;
use crate::step_outcome::{StepEnd, StepOutcome};
use crate::step_reply::{after_found, after_none, after_poll};
use crate::target::{commit_signed_head, target_of};
use credentials::{ProvideCredential, SignRequest};
use desk_driver::{BegunCall, LoadAnswer, LoadState, poll_provider, provider_at};
use http::request::Parts;
use sequential_signer::SigningCredential;
use sign_base::{ErrorKind, Head, Timestamp};
use sign_desk::Desk;

/// One step of a call in this state.
pub(crate) fn step<P, S>(
    desk: &mut Desk<P::Credential, S>,
    objects: &CallObjects<'_, P, P::Ctx>,
    begun: &BegunCall<Head>,
    now: Timestamp,
    state: SignState<P::Credential, P::Load, S::Work>,
    req: &mut Parts,
) -> StepOutcome<P::Credential, P::Load, S::Work>
where
    P: ProvideCredential,
    P::Credential: SigningCredential,
    S: SignRequest<Credential = P::Credential, Ctx = P::Ctx>,
    requires there { IsSome (service_of desk.old begun.now.id.handle) }
    requires loads { loader_of desk.old begun.now.id.handle ≡ Some (loader_for objects.now.providers.now) }
    requires issued { IsIssuedFor (poll_context P.Credential.SigningCredential P.ProvideCredential
        S.DeadlineRule S.SignRequest.own objects.now begun.now now) desk.old state }
    ensures { IsOutcomeWith (poll_context P.Credential.SigningCredential P.ProvideCredential
        S.DeadlineRule S.SignRequest.own objects.now begun.now now) state
        (record { old = desk.old; new = desk.new; before = req.old; after = req.new }) result }
{
    match state {
        SignState::Waiting(candidate) => after_poll(candidate, poll_call(desk, begun, now)),
        SignState::Loading {
            candidate,
            provider,
            load,
        } => { step_loading(desk, objects, begun, now, candidate, provider, load) }
        SignState::Signing(credential, work) => {
            step_signing(desk, objects, begun, now, credential, work, req)
        }
    }
}

/// The provider that was asked is polled.
fn step_loading<P, S>(
    desk: &mut Desk<P::Credential, S>,
    objects: &CallObjects<'_, P, P::Ctx>,
    begun: &BegunCall<Head>,
    now: Timestamp,
    candidate: Head,
    provider: u32,
    load: LoadState<P::Credential, P::Load>,
) -> StepOutcome<P::Credential, P::Load, S::Work>
where
    P: ProvideCredential,
    P::Credential: SigningCredential,
    S: SignRequest<Credential = P::Credential, Ctx = P::Ctx>,
    requires there { IsSome (service_of desk.old begun.now.id.handle) }
    requires loads { loader_of desk.old begun.now.id.handle ≡ Some (loader_for objects.now.providers.now) }
    requires issued { IsIssuedFor (poll_context P.Credential.SigningCredential P.ProvideCredential
        S.DeadlineRule S.SignRequest.own objects.now begun.now now) desk.old
        (Loading candidate provider load) }
    ensures { (request : Parts) → IsOutcomeWith
        (poll_context P.Credential.SigningCredential P.ProvideCredential
        S.DeadlineRule S.SignRequest.own objects.now begun.now now) (Loading candidate provider load)
        (record { old = desk.old; new = desk.new; before = request; after = request }) result }
{
    let asked = provider_at(objects.providers, provider).unwrap();
    match poll_provider(objects.alloc, asked, objects.ctx, load) {
        LoadAnswer::Pending(load) => {
            let state = SignState::Loading {
                candidate,
                provider,
                load: LoadState::Started(load),
            };
            StepOutcome::stop(StepEnd::Pending(state))
        }
        LoadAnswer::OutOfMemory(load) => {
            let state = SignState::Loading {
                candidate,
                provider,
                load,
            };
            StepOutcome::stop(StepEnd::OutOfMemory(state))
        }
        LoadAnswer::Found(credential) => {
            let (reply, found) = report_found(desk, begun, provider, now, credential);
            after_found(candidate, provider, found, reply)
        }
        LoadAnswer::Missing => {
            let reply = report_missing(desk, begun, provider, now);
            after_none(candidate, Refusal::Missing, reply)
        }
        LoadAnswer::Failed(e) => {
            let reply = report_failed_load(desk, begun, provider, now);
            after_none(candidate, Refusal::Loader(e), reply)
        }
    }
}

/// The service is polled.
fn step_signing<P, S>(
    desk: &mut Desk<P::Credential, S>,
    objects: &CallObjects<'_, P, P::Ctx>,
    begun: &BegunCall<Head>,
    now: Timestamp,
    credential: P::Credential,
    work: WorkState<S::Work>,
    req: &mut Parts,
) -> StepOutcome<P::Credential, P::Load, S::Work>
where
    P: ProvideCredential,
    P::Credential: SigningCredential,
    S: SignRequest<Credential = P::Credential, Ctx = P::Ctx>,
    requires there { IsSome (service_of desk.old begun.now.id.handle) }
    requires issued { IsIssuedFor (poll_context P.Credential.SigningCredential P.ProvideCredential
        S.DeadlineRule S.SignRequest.own objects.now begun.now now) desk.old (Signing credential work) }
    ensures { IsOutcomeWith (poll_context P.Credential.SigningCredential P.ProvideCredential
        S.DeadlineRule S.SignRequest.own objects.now begun.now now) (Signing credential work)
        (record { old = desk.old; new = desk.new; before = req.old; after = req.new }) result }
{
    let service = desk.rule_of(begun.id.handle).unwrap();
    match poll_service(
        objects.alloc,
        service,
        objects.ctx,
        begun,
        &credential,
        work,
    ) {
        WorkAnswer::Pending(work, candidate) => {
            let state = SignState::Signing(credential, WorkState::Started(work, candidate));
            StepOutcome::stop(StepEnd::Pending(state))
        }
        WorkAnswer::OutOfMemory(work) => {
            StepOutcome::stop(StepEnd::OutOfMemory(SignState::Signing(credential, work)))
        }
        WorkAnswer::Failed(e) => {
            report_failed_sign(desk, begun);
            StepOutcome::refused(Refusal::Service(e), None)
        }
        WorkAnswer::Signed(candidate) => {
            accept(desk, objects, begun, now, credential, candidate, req)
        }
    }
}

/// The service signed this head. All memory is taken before the desk ends the call.
fn accept<P, S>(
    desk: &mut Desk<P::Credential, S>,
    objects: &CallObjects<'_, P, P::Ctx>,
    begun: &BegunCall<Head>,
    _now: Timestamp,
    credential: P::Credential,
    candidate: Head,
    req: &mut Parts,
) -> StepOutcome<P::Credential, P::Load, S::Work>
where
    P: ProvideCredential,
    P::Credential: SigningCredential,
    S: SignRequest<Credential = P::Credential, Ctx = P::Ctx>,
    requires there { IsSome (service_of desk.old begun.now.id.handle) }
    requires issued { IsIssuedFor (poll_context P.Credential.SigningCredential P.ProvideCredential
        S.DeadlineRule S.SignRequest.own objects.now begun.now _now) desk.old
        (Signing credential (work_state.Signed candidate)) }
    ensures { (work : WorkState S.Work) → KeepsWork work (work_state.Signed candidate)
        → IsOutcomeWith (poll_context P.Credential.SigningCredential P.ProvideCredential
        S.DeadlineRule S.SignRequest.own objects.now begun.now _now) (Signing credential work)
        (record { old = desk.old; new = desk.new; before = req.old; after = req.new }) result }
{
    match target_of(objects.alloc, &candidate, objects.keys) {
        Ok(target) => match commit_signed_head(desk, begun, candidate, target, req) {
            None => StepOutcome::stop(StepEnd::Done),
            Some(candidate) => keep(credential, candidate),
        },
        Err(e) => match e.kind() {
            ErrorKind::OutOfMemory => keep(credential, candidate),
            _ => {
                report_failed_sign(desk, begun);
                StepOutcome::refused(Refusal::Service(e), None)
            }
        },
    }
}

/// There was no memory to take the head that the service signed.
fn keep<K, L, W>(credential: K, candidate: Head) -> StepOutcome<K, L, W>
    ensures { result ≡
        record { flow = Stop (OutOfMemory (Signing credential (work_state.Signed candidate))); wake = None } }
{
    let state = SignState::Signing(credential, WorkState::Signed(candidate));
    StepOutcome::stop(StepEnd::OutOfMemory(state))
}
