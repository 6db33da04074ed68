//! One call, and calls one after another.

ghost use Rattle.worked_scripts.specs.OneCall.{OneCallIsSigned, SecondCallReusesTheCache};
ghost use Rattle.worked_scripts.specs.OneCall.{StaleCredentialIsLoadedAgain, ShortCredentialIsRefused};
ghost use Rattle.worked_scripts.specs.OneCall.{RefusedRefreshLeavesTheCache, StaleRefreshIsHandedOut};
ghost use Rattle.worked_scripts.specs.OneCall.{CancelWhileSigningLeavesTheCache};
ghost use Rattle.worked_scripts.specs.OneCall.{ServiceFailureLeavesTheCache, MomentsMayGoBack};

/// A call on an empty cache loads a credential, and its head is signed.
pub fn one_call_is_signed()
    ensures { OneCallIsSigned }
{}

/// A second call is handed the cached credential.
pub fn second_call_reuses_the_cache()
    ensures { SecondCallReusesTheCache }
{}

/// At the end of its freshness a credential is loaded again.
pub fn stale_credential_is_loaded_again()
    ensures { StaleCredentialIsLoadedAgain }
{}

/// A credential that expires at its deadline is refused, and not cached.
pub fn short_credential_is_refused()
    ensures { ShortCredentialIsRefused }
{}

/// A refused refresh leaves the credential that was cached.
pub fn refused_refresh_leaves_the_cache()
    ensures { RefusedRefreshLeavesTheCache }
{}

/// A found credential that is not fresh is handed out where it lasts; the next call loads again.
pub fn stale_refresh_is_handed_out()
    ensures { StaleRefreshIsHandedOut }
{}

/// A cancel while the service signs leaves the cache.
pub fn cancel_while_signing_leaves_the_cache()
    ensures { CancelWhileSigningLeavesTheCache }
{}

/// A failure of the service leaves the cache.
pub fn service_failure_leaves_the_cache()
    ensures { ServiceFailureLeavesTheCache }
{}

/// Moments may go back.
pub fn moments_may_go_back()
    ensures { MomentsMayGoBack }
{}
