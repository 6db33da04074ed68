//! The chain of AWS's tools.
ghost use Rattle.std.specs.Prelude.{◌≡◌, IfOk};
ghost use Rattle.aws_chain.specs.Order.{IsDefaultOrder};

use crate::DefaultProvider;
use aws_credentials::EnvironmentProvider;
use aws_endpoints::ContainerProvider;
use aws_instance::InstanceProvider;
use aws_process::ProfileProcessProvider;
use aws_profiles::ProfileProvider;
use credentials::{ProvideCredentialChain, Providers};
use sign_base::NoMemory;
use std::alloc::Global;

/// The providers in the order of AWS's tools: the environment; the shared files, of the profile that
/// `AWS_PROFILE` names, else `default`; the process that this profile names by `credential_process`; the
/// endpoint of the container; and the metadata service of the instance. The next is asked where one finds
/// nothing or fails.
///
/// It is the order of AWS's SDKs, which take a profile's keys from both of its files before they run its
/// process; botocore runs the process after the credentials file and before the config file. Web identities
/// and assumed roles, which the tools ask for before, are not here: whoever has providers of these makes an
/// enum of more cases.
pub fn default_chain<X>(alloc: Global) -> Result<Providers<DefaultProvider<X>>, NoMemory<()>>
    ensures { IfOk result IsDefaultOrder }
{
    let mut providers = Vec::new(alloc);
    providers.push(DefaultProvider::Environment(EnvironmentProvider::new()))?;
    providers.push(DefaultProvider::Profile(ProfileProvider::new()))?;
    providers.push(DefaultProvider::Process(ProfileProcessProvider::new()))?;
    providers.push(DefaultProvider::Container(ContainerProvider::new()))?;
    providers.push(DefaultProvider::Instance(InstanceProvider::new()))?;
    Ok(Providers::Chain(ProvideCredentialChain::from_vec(providers)))
}
