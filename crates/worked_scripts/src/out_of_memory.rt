//! Transcripts in which an allocation failed.

ghost use Rattle.worked_scripts.specs.OutOfMemory.{EventsThatAllocateMayRunOut, OtherEventsCannotRunOut};

/// An event that allocates may be answered `OutOfMemory`; sent again, it gets the reply that it would
/// have got.
pub fn events_that_allocate_may_run_out()
    ensures { EventsThatAllocateMayRunOut }
{}

/// An event that does not allocate is never answered `OutOfMemory`.
pub fn other_events_cannot_run_out()
    ensures { OtherEventsCannotRunOut }
{}
