//! One of the providers that AWS's tools ask.
ghost use Rattle.std.specs.Prelude.{◌≡◌};
ghost use Rattle.aws_chain.specs.Order.{ByProvider, ByLoad};

use aws_credentials::{EnvironmentProvider, HasVariables, SessionCredential};
use aws_endpoints::{ContainerLoad, ContainerProvider, HasSender};
use aws_instance::{InstanceLoad, InstanceProvider};
use aws_process::{HasCommands, ProfileProcessLoad, ProfileProcessProvider};
use aws_profiles::{HasFiles, ProfileLoad, ProfileProvider};
use credentials::{Polled, ProvideCredential};
use sign_base::NoMemory;
use std::alloc::Global;

/// One of the providers that AWS's tools ask.
#[derive(Drop)]
pub enum DefaultProvider<X> {
    Environment(EnvironmentProvider<X>),
    Profile(ProfileProvider<X>),
    Process(ProfileProcessProvider<X>),
    Container(ContainerProvider<X>),
    Instance(InstanceProvider<X>),
}

/// A load of one of them.
#[derive(Drop)]
pub enum DefaultLoad<R, P, S> {
    Environment,
    Profile(ProfileLoad<R>),
    Process(ProfileProcessLoad<R, P>),
    Container(ContainerLoad<S>),
    Instance(InstanceLoad<S>),
}

/// Each answers as it does by itself.
impl<X: HasVariables + HasFiles + HasCommands + HasSender> ProvideCredential
    for DefaultProvider<X> {
    type Credential = SessionCredential;

    type Ctx = X;

    type Load = DefaultLoad<X::Read, X::Run, X::Send>;

    ghost started = { λ provider ctx load. ByLoad provider load
        (λ of it. ⟦<ProfileProvider<X> as ProvideCredential>⟧.started of ctx it)
        (λ of it. ⟦<ProfileProcessProvider<X> as ProvideCredential>⟧.started of ctx it)
        (λ of it. ⟦<ContainerProvider<X> as ProvideCredential>⟧.started of ctx it)
        (λ of it. ⟦<InstanceProvider<X> as ProvideCredential>⟧.started of ctx it) };

    ghost ready = { λ provider ctx load. ByLoad provider load
        (λ of it. ⟦<ProfileProvider<X> as ProvideCredential>⟧.ready of ctx it)
        (λ of it. ⟦<ProfileProcessProvider<X> as ProvideCredential>⟧.ready of ctx it)
        (λ of it. ⟦<ContainerProvider<X> as ProvideCredential>⟧.ready of ctx it)
        (λ of it. ⟦<InstanceProvider<X> as ProvideCredential>⟧.ready of ctx it) };

    ghost gives = { λ provider ctx answer. ByProvider provider
        (λ of. ⟦<EnvironmentProvider<X> as ProvideCredential>⟧.gives of ctx answer)
        (λ of. ⟦<ProfileProvider<X> as ProvideCredential>⟧.gives of ctx answer)
        (λ of. ⟦<ProfileProcessProvider<X> as ProvideCredential>⟧.gives of ctx answer)
        (λ of. ⟦<ContainerProvider<X> as ProvideCredential>⟧.gives of ctx answer)
        (λ of. ⟦<InstanceProvider<X> as ProvideCredential>⟧.gives of ctx answer) };

    fn provide_credential(
        &self,
        alloc: Global,
        ctx: &X,
    ) -> Result<DefaultLoad<X::Read, X::Run, X::Send>, NoMemory<()>> {
        Ok(match self {
            DefaultProvider::Environment(_) => DefaultLoad::Environment,
            DefaultProvider::Profile(of) => DefaultLoad::Profile(of.provide_credential(
                alloc, ctx,
            )?),
            DefaultProvider::Process(of) => DefaultLoad::Process(of.provide_credential(
                alloc, ctx,
            )?),
            DefaultProvider::Container(of) => {
                DefaultLoad::Container(of.provide_credential(alloc, ctx)?)
            }
            DefaultProvider::Instance(of) => {
                DefaultLoad::Instance(of.provide_credential(alloc, ctx)?)
            }
        })
    }

    fn poll_load(
        &self,
        alloc: Global,
        ctx: &X,
        load: &mut DefaultLoad<X::Read, X::Run, X::Send>,
    ) -> Polled<Option<SessionCredential>> {
        match (self, load) {
            (DefaultProvider::Environment(of), DefaultLoad::Environment) => {
                of.poll_load(alloc, ctx, &mut ())
            }
            (DefaultProvider::Profile(of), DefaultLoad::Profile(load)) => {
                of.poll_load(alloc, ctx, load)
            }
            (DefaultProvider::Process(of), DefaultLoad::Process(load)) => {
                of.poll_load(alloc, ctx, load)
            }
            (DefaultProvider::Container(of), DefaultLoad::Container(load)) => {
                of.poll_load(alloc, ctx, load)
            }
            (DefaultProvider::Instance(of), DefaultLoad::Instance(load)) => {
                of.poll_load(alloc, ctx, load)
            }
            // A load of another provider.
            _ => Polled::Ready(None),
        }
    }
}
