//! The providers that AWS's tools ask, in their order.
ghost use Rattle.std.specs.Prelude.{◌≡◌, ℕ, List, IfOk, IfSome};
ghost use Rattle.aws_credentials.specs.Environment.{found_in_environment};
ghost use Rattle.aws_credentials.specs.Found.{GivesFound};
ghost use Rattle.aws_profiles.specs.Order.{ByProvider, ByLoad, IsDefaultOrder};
ghost use Rattle.aws_profiles.specs.Reads.{Begun, LoadStarted, ProfileFileGives, ProfileGives};

use crate::{HasFiles, ProfileLoad, ProfileProvider};
use aws_credentials::{EnvironmentProvider, HasVariables, SessionCredential};
use credentials::{Polled, ProvideCredential, ProvideCredentialChain, Providers};
use sign_base::NoMemory;
use std::alloc::Global;

/// One of the providers that AWS's tools ask.
#[derive(Drop)]
pub enum AwsProvider<X> {
    Environment(EnvironmentProvider<X>),
    Profile(ProfileProvider<X>),
}

/// A load of one of them.
#[derive(Drop)]
pub enum AwsLoad<R> {
    Environment,
    Profile(ProfileLoad<R>),
}

impl<X: HasVariables + HasFiles> ProvideCredential for AwsProvider<X> {
    type Credential = SessionCredential;

    type Ctx = X;

    type Load = AwsLoad<X::Read>;

    ghost started = { λ provider ctx load. ByLoad provider load
        (λ chosen of. LoadStarted (Begun (X.variables ctx) (X.home ctx) (X.begun ctx))
        (ProfileFileGives (X.variables ctx) (X.home ctx) (X.reads ctx) chosen) of.file of.open_read) };

    ghost ready = { λ provider ctx load. ByLoad provider load
        (λ chosen of. IfSome of.open_read (λ read. X.read_ready ctx read)
        × ((path : List ℕ) (read : X.Read) → X.begun ctx path read → X.read_ready ctx read)) };

    ghost gives = { λ provider ctx answer. ByProvider provider
        (GivesFound (found_in_environment (X.variables ctx)) answer)
        (λ chosen. ProfileGives (X.variables ctx) (X.home ctx) (X.reads ctx) chosen answer) };

    fn provide_credential(&self, alloc: Global, ctx: &X) -> Result<AwsLoad<X::Read>, NoMemory<()>> {
        match self {
            AwsProvider::Environment(_) => Ok(AwsLoad::Environment),
            AwsProvider::Profile(profile) => {
                Ok(AwsLoad::Profile(profile.provide_credential(alloc, ctx)?))
            }
        }
    }

    fn poll_load(
        &self,
        alloc: Global,
        ctx: &X,
        load: &mut AwsLoad<X::Read>,
    ) -> Polled<Option<SessionCredential>> {
        match (self, load) {
            (AwsProvider::Environment(environment), AwsLoad::Environment) => {
                environment.poll_load(alloc, ctx, &mut ())
            }
            (AwsProvider::Profile(profile), AwsLoad::Profile(load)) => {
                profile.poll_load(alloc, ctx, load)
            }
            // A load of another provider.
            _ => Polled::Ready(None),
        }
    }
}

/// The providers in the order of AWS's tools: the environment, and then the shared files, of the profile that
/// `AWS_PROFILE` names, else `default`. The next is asked where one finds nothing or fails.
///
/// Behind these AWS's tools ask for processes and for the endpoints of containers and instances:
/// `aws_chain::default_chain` does. Web identities, for which they ask between these, are in neither.
pub fn aws_chain<X>(alloc: Global) -> Result<Providers<AwsProvider<X>>, NoMemory<()>>
    ensures { IfOk result IsDefaultOrder }
{
    let mut providers = Vec::new(alloc);
    providers.push(AwsProvider::Environment(EnvironmentProvider::new()))?;
    providers.push(AwsProvider::Profile(ProfileProvider::new()))?;
    Ok(Providers::Chain(ProvideCredentialChain::from_vec(providers)))
}
