//! What a line of a script, or of `grant`, says, when one that sets up is bad, and events as scripts name
//! them.
ghost use Rattle.std.specs.Prelude.{◌≡◌};
ghost use Rattle.signctl_format.specs.ScriptSetup.{setup_error};

use crate::{ScriptCredential, ScriptRule};
use line_words::LineError;
use sequential_signer::{Event, Loader};
use std::marker::Model;

/// One line of a script, or of `grant`, whose events are `E`.
#[derive(Debug, Drop)]
pub enum Item<E> {
    /// An empty line, or one that begins with `#`.
    Silent,
    /// A cache with this loader.
    Cache(Loader),
    /// A handle on a cache, with a deadline rule.
    Handle { cache: u32, rule: ScriptRule },
    /// Something that happens to a call.
    Event(E),
}

/// An event of a script, seen with its duration as the calls of `Duration` see it: contracts know
/// the nanoseconds of a duration that was made, and not how it stores them.
#[derive(Debug, Drop)]
pub struct ScriptEvent {
    event: Event<ScriptCredential>,
}

impl Model for ScriptEvent {
    ghost use Rattle.sequential_signer.specs.declared.event.Event.{Event};
    ghost use Rattle.signctl_format.specs.declared.credential.ScriptCredential.{ScriptCredential};
    ghost use Rattle.signctl_format.specs.ScriptEvents.{plain_event};

    ghost Value = { Event ScriptCredential };

    ghost view = { λ e. plain_event e.event };
}

impl ScriptEvent {
    ghost use Rattle.std.specs.Prelude.{◌≡◌};
    ghost use Rattle.signctl_format.specs.ScriptEvents.{plain_event};

    pub fn new(event: Event<ScriptCredential>) -> ScriptEvent
        ensures { result ≡ plain_event event }
    {
        ScriptEvent { event }
    }

    pub fn as_event(&self) -> &Event<ScriptCredential>
        ensures { plain_event result.now ≡ self.now }
    {
        &self.event
    }

    pub fn into_event(self) -> Event<ScriptCredential>
        ensures { plain_event result ≡ self }
    {
        self.event
    }
}

/// Why a cache or a handle line is bad, where it is, by whether an event came before it
/// and whether its cache is there.
pub fn setup_error(had_event: bool, there: bool) -> Option<LineError>
    ensures { result ≡ setup_error had_event there }
{
    if had_event {
        Some(LineError::Late)
    } else if there {
        None
    } else {
        Some(LineError::NoSuchCache)
    }
}
