//! Providers that are asked one after another, until one finds a credential.
ghost use Rattle.std.specs.Prelude.{◌≡◌, ◌++◌, ◌∷◌, ◌↔◌, [], length, slice_get, IfOk, IfErr, IsTrue};
ghost use Rattle.std.specs.Option.{option_copied};

use sign_base::NoMemory;
use std::alloc::Global;
use std::fmt;
use std::marker::Model;

/// Providers of one type, in the order in which they are asked. Providers of several types are an
/// enum of the caller's.
#[derive(Drop)]
pub struct ProvideCredentialChain<P> {
    pub(crate) providers: Vec<P>,
}

impl<P> Model for ProvideCredentialChain<P> {
    ghost use Rattle.std.specs.Prelude.{List};

    ghost Value = { List P };

    ghost view = { λ chain. chain.providers.items };
}

impl<P> ProvideCredentialChain<P> {
    /// A chain of no providers. It takes no memory.
    pub fn new(alloc: Global) -> Self
        ensures { result ≡ [] }
    {
        ProvideCredentialChain {
            providers: Vec::new(alloc),
        }
    }

    /// The providers of a vector, in its order. It takes no memory.
    pub fn from_vec(providers: Vec<P>) -> Self
        ensures { result ≡ providers.items }
    {
        ProvideCredentialChain { providers }
    }

    /// The chain with one provider more, which is asked last. Where there is no memory, chain and
    /// provider come back as they were.
    pub fn push(self, provider: P) -> Result<Self, NoMemory<(Self, P)>>
        ensures ok { IfOk result (λ chain. chain ≡ self ++ provider ∷ []) }
        ensures back { IfErr result (λ e. e.back ≡ (self, provider)) }
    {
        let mut providers = self.providers;
        match providers.push(provider) {
            Ok(()) => Ok(ProvideCredentialChain { providers }),
            Err(e) => Err(NoMemory {
                back: (ProvideCredentialChain { providers }, e.value),
            }),
        }
    }

    /// The chain with one provider more, which is asked first. Where there is no memory, chain and
    /// provider come back as they were.
    pub fn push_front(self, provider: P) -> Result<Self, NoMemory<(Self, P)>>
        ensures ok { IfOk result (λ chain. chain ≡ provider ∷ self) }
        ensures back { IfErr result (λ e. e.back ≡ (self, provider)) }
    {
        let mut providers = self.providers;
        match providers.insert(0, provider) {
            Ok(()) => Ok(ProvideCredentialChain { providers }),
            Err(e) => Err(NoMemory {
                back: (ProvideCredentialChain { providers }, e.value),
            }),
        }
    }

    /// The number of providers.
    pub fn len(&self) -> usize
        ensures { result ≡ length self.now }
    {
        self.providers.len()
    }

    /// Whether there is no provider.
    pub fn is_empty(&self) -> bool
        ensures { IsTrue result ↔ (self.now ≡ []) }
    {
        self.providers.is_empty()
    }

    /// The provider at this place, counted from 0, or None where there are not so many.
    pub fn provider(&self, place: usize) -> Option<&P>
        ensures { option_copied result ≡ slice_get self.now place }
    {
        self.providers.get(place)
    }
}

/// Shows the number of providers, and nothing of them, since a provider may hold a secret.
impl<P> fmt::Debug for ProvideCredentialChain<P> {
    fn fmt<W: fmt::Write>(&self, f: &mut fmt::Formatter<W>) -> fmt::Result {
        let mut parts = f.debug_struct("ProvideCredentialChain");
        parts.field("providers_count", &self.providers.len());
        parts.finish()
    }
}
