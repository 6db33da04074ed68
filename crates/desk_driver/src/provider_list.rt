//! The providers of a cache, by their numbers.
ghost use Rattle.std.specs.Prelude.{◌≡◌, option_copied};
ghost use Rattle.desk_driver.specs.ProviderList.{AreFew, loader_for, provider_at};

use credentials::Providers;
use sequential_signer::Loader;

/// How a desk loads a cache with these providers.
pub fn loader_of<P>(providers: &Providers<P>) -> Loader
    requires { AreFew providers.now }
    ensures { result ≡ loader_for providers.now }
{
    match providers {
        Providers::Single(_) => Loader::Single,
        Providers::Chain(chain) => Loader::Chain(chain.len() as u32),
    }
}

/// The provider with this number.
pub fn provider_at<P>(providers: &Providers<P>, number: u32) -> Option<&P>
    ensures { option_copied result ≡ provider_at providers.now number }
{
    match providers {
        Providers::Single(provider) if number == 0 => Some(provider),
        Providers::Single(_) => None,
        Providers::Chain(chain) => chain.provider(number as usize),
    }
}
