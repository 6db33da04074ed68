//! Chains of providers.

ghost use Rattle.worked_scripts.specs.Chains.{ChainOfNoneHasNone, ChainOfOneAsksOnce, ChainAsksUntilOneFinds};
ghost use Rattle.worked_scripts.specs.Chains.{ChainThatFindsNoneMisses, RefusedCredentialEndsTheChain};

/// A chain of no providers has no credential.
pub fn chain_of_none_has_none()
    ensures { ChainOfNoneHasNone }
{}

/// The one provider of a chain of one decides; its failure is a miss.
pub fn chain_of_one_asks_once()
    ensures { ChainOfOneAsksOnce }
{}

/// A chain passes over misses and failures until a provider finds a credential.
pub fn chain_asks_until_one_finds()
    ensures { ChainAsksUntilOneFinds }
{}

/// Where no provider of a chain finds a credential, the call is refused as by a miss.
pub fn chain_that_finds_none_misses()
    ensures { ChainThatFindsNoneMisses }
{}

/// A credential that is found and refused ends the chain.
pub fn refused_credential_ends_the_chain()
    ensures { RefusedCredentialEndsTheChain }
{}
