//! Deadlines out of range, and events that do not fit.

ghost use Rattle.worked_scripts.specs.Bounds.{DeadlineOutOfRangeIsRefused};
ghost use Rattle.worked_scripts.specs.Bounds.{FreshCredentialIsRefusedForTheRange};
ghost use Rattle.worked_scripts.specs.Bounds.{StaleCredentialLoadsWhateverTheDeadline};
ghost use Rattle.worked_scripts.specs.Bounds.{RangeEndsWithItsLastSecond, WhatDoesNotFitChangesNothing};

/// A deadline out of range refuses what was found, and nothing is cached.
pub fn deadline_out_of_range_is_refused()
    ensures { DeadlineOutOfRangeIsRefused }
{}

/// While the cached credential is fresh, a deadline out of range refuses the call; the credential stays
/// cached.
pub fn fresh_credential_is_refused_for_the_range()
    ensures { FreshCredentialIsRefusedForTheRange }
{}

/// Once the cached credential is stale, its deadline is not asked for, and the call loads.
pub fn stale_credential_loads_whatever_the_deadline()
    ensures { StaleCredentialLoadsWhateverTheDeadline }
{}

/// The last second of the range is a deadline, and the one after it is none.
pub fn range_ends_with_its_last_second()
    ensures { RangeEndsWithItsLastSecond }
{}

/// An event that does not fit its call changes nothing.
pub fn what_does_not_fit_changes_nothing()
    ensures { WhatDoesNotFitChangesNothing }
{}
