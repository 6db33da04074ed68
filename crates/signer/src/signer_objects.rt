//! The polls of a service's work. What there was no memory for is kept.
ghost use Rattle.std.specs.Prelude.{◌≡◌};
ghost use Rattle.credentials.specs.Operation.{IsCandidate};
ghost use Rattle.signer.specs.ObjectAnswer.{IsWorkKept, IsWorkAnswer};
ghost use Rattle.signer.specs.ObjectPoll.{service_meaning};
ghost use Rattle.signer.specs.declared.sign.WorkState.TheVariants as work_state;

use crate::object_answer::WorkAnswer;
use crate::sign::WorkState;
use credentials::{Polled, SignRequest};
use desk_driver::BegunCall;
use sign_base::Head;
use std::alloc::Global;

/// Polls a work. It is started first where it is not yet.
pub(crate) fn poll_service<S: SignRequest>(
    alloc: Global,
    service: &S,
    ctx: &S::Ctx,
    begun: &BegunCall<Head>,
    credential: &S::Credential,
    work: WorkState<S::Work>,
) -> WorkAnswer<S::Work>
    requires { let m = service_meaning S.SignRequest.own service.now ctx.now begun.now credential.now
        in IsWorkKept m.started m.gives m.head work }
    ensures { IsWorkAnswer
        (service_meaning S.SignRequest.own service.now ctx.now begun.now credential.now) work result }
{
    match work {
        WorkState::Signed(candidate) => WorkAnswer::Signed(candidate),
        WorkState::Started(work, candidate) => {
            poll_work(alloc, service, ctx, begun, credential, work, candidate)
        }
        WorkState::Unstarted(candidate) => {
            match service.sign_request(alloc, ctx, credential, begun.expires_in) {
                Ok(work) => poll_work(alloc, service, ctx, begun, credential, work, candidate),
                Err(_) => WorkAnswer::OutOfMemory(WorkState::Unstarted(candidate)),
            }
        }
    }
}

// The call and its credential are seen by the contract alone.
fn poll_work<S: SignRequest>(
    alloc: Global,
    service: &S,
    ctx: &S::Ctx,
    _begun: &BegunCall<Head>,
    _credential: &S::Credential,
    mut work: S::Work,
    mut candidate: Head,
) -> WorkAnswer<S::Work>
    requires { let m = service_meaning S.SignRequest.own service.now ctx.now _begun.now _credential.now
        in m.started work × IsCandidate m.gives m.head candidate }
    ensures { IsWorkAnswer (service_meaning S.SignRequest.own service.now ctx.now _begun.now _credential.now)
        (work_state.Started work candidate) result }
{
    match service.poll_sign(alloc, ctx, &mut work, &mut candidate) {
        Polled::Pending => WorkAnswer::Pending(work, candidate),
        Polled::Ready(()) => WorkAnswer::Signed(candidate),
        Polled::Failed(e) => WorkAnswer::Failed(e),
        Polled::OutOfMemory => WorkAnswer::OutOfMemory(WorkState::Started(work, candidate)),
    }
}
