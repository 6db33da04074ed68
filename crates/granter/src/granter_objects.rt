//! The polls of a granting service's work. What there was no memory for is kept.
ghost use Rattle.granter.specs.ObjectAnswer.{IsWorkKept, IsWorkAnswer};
ghost use Rattle.granter.specs.ObjectPoll.{service_meaning};
ghost use Rattle.granter.specs.declared.grant.WorkState.TheVariants as work_state;

use crate::grant::WorkState;
use crate::object_answer::WorkAnswer;
use credentials::{GrantCredential, Polled};
use desk_driver::BegunCall;
use std::alloc::Global;

/// Polls a work. It is started first where it is not yet.
pub(crate) fn poll_service<G: GrantCredential>(
    alloc: Global,
    service: &G,
    ctx: &G::Ctx,
    begun: &BegunCall<()>,
    source: &G::Credential,
    work: WorkState<G::Credential, G::Work>,
) -> WorkAnswer<G::Credential, G::Work>
    requires { let m = service_meaning G.GrantCredential.own service.now ctx.now begun.now source.now
        in IsWorkKept m.started m.gives work }
    ensures { IsWorkAnswer
        (service_meaning G.GrantCredential.own service.now ctx.now begun.now source.now) work result }
{
    match work {
        WorkState::Made(credential) => WorkAnswer::Made(credential),
        WorkState::Started(work) => poll_work(alloc, service, ctx, begun, source, work),
        WorkState::Unstarted => {
            match service.grant_credential(alloc, ctx, source, begun.expires_in) {
                Ok(work) => poll_work(alloc, service, ctx, begun, source, work),
                Err(_) => WorkAnswer::OutOfMemory(WorkState::Unstarted),
            }
        }
    }
}

// The call and its source are seen by the contract alone.
fn poll_work<G: GrantCredential>(
    alloc: Global,
    service: &G,
    ctx: &G::Ctx,
    _begun: &BegunCall<()>,
    _source: &G::Credential,
    mut work: G::Work,
) -> WorkAnswer<G::Credential, G::Work>
    requires { (service_meaning G.GrantCredential.own service.now ctx.now _begun.now _source.now).started
        work }
    ensures { IsWorkAnswer (service_meaning G.GrantCredential.own service.now ctx.now _begun.now _source.now)
        (work_state.Started work) result }
{
    match service.poll_grant(alloc, ctx, &mut work) {
        Polled::Pending => WorkAnswer::Pending(work),
        Polled::Ready(credential) => WorkAnswer::Made(credential),
        Polled::Failed(e) => WorkAnswer::Failed(e),
        Polled::OutOfMemory => WorkAnswer::OutOfMemory(WorkState::Started(work)),
    }
}
