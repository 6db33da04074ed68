//! A granter's transcripts in which an allocation failed.

ghost use Rattle.worked_scripts.specs.GrantOutOfMemory.{EventsOfGrantersMayRunOut};
ghost use Rattle.worked_scripts.specs.GrantOutOfMemory.{OtherEventsOfGrantersCannotRunOut};

/// An event that allocates may be answered `OutOfMemory`; sent again, it gets the reply that it would
/// have got.
pub fn events_of_granters_may_run_out()
    ensures { EventsOfGrantersMayRunOut }
{}

/// An event that does not allocate is never answered `OutOfMemory`.
pub fn other_events_of_granters_cannot_run_out()
    ensures { OtherEventsOfGrantersCannotRunOut }
{}
