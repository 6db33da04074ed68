//! The polls of a provider's load. What there was no memory for is kept.
ghost use Rattle.desk_driver.specs.LoadAnswer.{IsLoadKept, IsLoadAnswer, provider_meaning};
ghost use Rattle.desk_driver.specs.declared.load_state.LoadState.TheVariants as load_state;

use crate::load_state::{LoadAnswer, LoadState};
use credentials::{Polled, ProvideCredential};
use std::alloc::Global;

/// Polls a load. It is started first where it is not yet.
pub fn poll_provider<P: ProvideCredential>(
    alloc: Global,
    provider: &P,
    ctx: &P::Ctx,
    load: LoadState<P::Credential, P::Load>,
) -> LoadAnswer<P::Credential, P::Load>
    requires { let m = provider_meaning P.ProvideCredential provider.now ctx.now
        in IsLoadKept m.started m.gives load }
    ensures { IsLoadAnswer (provider_meaning P.ProvideCredential provider.now ctx.now) load result }
{
    match load {
        LoadState::Started(load) => poll_load(alloc, provider, ctx, load),
        LoadState::Found(credential) => LoadAnswer::Found(credential),
        LoadState::Unstarted => match provider.provide_credential(alloc, ctx) {
            Ok(load) => poll_load(alloc, provider, ctx, load),
            Err(_) => LoadAnswer::OutOfMemory(LoadState::Unstarted),
        },
    }
}

fn poll_load<P: ProvideCredential>(
    alloc: Global,
    provider: &P,
    ctx: &P::Ctx,
    mut load: P::Load,
) -> LoadAnswer<P::Credential, P::Load>
    requires { P.started provider.now ctx.now load }
    ensures { IsLoadAnswer (provider_meaning P.ProvideCredential provider.now ctx.now)
        (load_state.Started load) result }
{
    match provider.poll_load(alloc, ctx, &mut load) {
        Polled::Pending => LoadAnswer::Pending(load),
        Polled::Ready(Some(credential)) => LoadAnswer::Found(credential),
        Polled::Ready(None) => LoadAnswer::Missing,
        Polled::Failed(e) => LoadAnswer::Failed(e),
        Polled::OutOfMemory => LoadAnswer::OutOfMemory(LoadState::Started(load)),
    }
}
