//! Events as a granter's lines name them.
use sequential_signer::GrantEvent;
use signctl_format::ScriptCredential;
use std::marker::Model;

/// An event of a granter, seen with its duration as the calls of `Duration` see it: contracts know
/// the nanoseconds of a duration that was made, and not how it stores them.
#[derive(Debug, Drop)]
pub struct GrantScriptEvent {
    event: GrantEvent<ScriptCredential>,
}

impl Model for GrantScriptEvent {
    ghost use Rattle.sequential_signer.specs.declared.grant_event.GrantEvent.{GrantEvent};
    ghost use Rattle.signctl_format.specs.declared.credential.ScriptCredential.{ScriptCredential};
    ghost use Rattle.signctl_grant.specs.GrantEvents.{plain_grant_event};

    ghost Value = { GrantEvent ScriptCredential };

    ghost view = { λ e. plain_grant_event e.event };
}

impl GrantScriptEvent {
    ghost use Rattle.std.specs.Prelude.{◌≡◌};
    ghost use Rattle.signctl_grant.specs.GrantEvents.{plain_grant_event};

    pub fn new(event: GrantEvent<ScriptCredential>) -> GrantScriptEvent
        ensures { result ≡ plain_grant_event event }
    {
        GrantScriptEvent { event }
    }

    pub fn as_event(&self) -> &GrantEvent<ScriptCredential>
        ensures { plain_grant_event result.now ≡ self.now }
    {
        &self.event
    }
}
