//! The provider or the providers of a cache.

use crate::ProvideCredentialChain;

/// What loads the credential of a cache: one provider, whose failure is the load's, or a chain, which
/// passes over failures.
#[derive(Drop)]
pub enum Providers<P> {
    Single(P),
    Chain(ProvideCredentialChain<P>),
}
