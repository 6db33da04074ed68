//! A granter: what it makes from a source, and which source it starts from.

ghost use Rattle.worked_scripts.specs.Grants.{ShortSourceIsRefused, StaleSourceIsLoadedAgain};
ghost use Rattle.worked_scripts.specs.Grants.{GrantedCredentialIsNotCached, StaleCredentialIsRefused};
ghost use Rattle.worked_scripts.specs.Grants.{FreshnessOfTheGrantedIsNotAsked, PollsAwaitTheAnswers};
ghost use Rattle.worked_scripts.specs.Grants.{DeadlineOutOfRangeRefusesTheSource};
ghost use Rattle.worked_scripts.specs.Grants.{CancelledCallIsOver, OtherEventsOfGrantersDoNotFit};

/// A source that does not last to its deadline is refused, and not cached.
pub fn short_source_is_refused()
    ensures { ShortSourceIsRefused }
{}

/// A source that is not fresh is handed to the granter where it lasts; the next call loads again.
pub fn stale_source_is_loaded_again()
    ensures { StaleSourceIsLoadedAgain }
{}

/// What the granter makes is given, and not cached: the next call starts from the same source.
pub fn granted_credential_is_not_cached()
    ensures { GrantedCredentialIsNotCached }
{}

/// A granted credential that expires at its own moment is refused; the source stays.
pub fn stale_credential_is_refused()
    ensures { StaleCredentialIsRefused }
{}

/// A granted credential that is not fresh is given where it is valid at its own moment.
pub fn freshness_of_the_granted_is_not_asked()
    ensures { FreshnessOfTheGrantedIsNotAsked }
{}

/// A poll while an answer is awaited waits.
pub fn polls_await_the_answers()
    ensures { PollsAwaitTheAnswers }
{}

/// A deadline out of range refuses the source, be it found or cached; what was cached stays.
pub fn deadline_out_of_range_refuses_the_source()
    ensures { DeadlineOutOfRangeRefusesTheSource }
{}

/// A cancel ends a call that is begun, that loads, or that is granted, and leaves the cache.
pub fn cancelled_call_is_over()
    ensures { CancelledCallIsOver }
{}

/// An event that does not fit a granter's call changes nothing.
pub fn other_events_of_granters_do_not_fit()
    ensures { OtherEventsOfGrantersDoNotFit }
{}
