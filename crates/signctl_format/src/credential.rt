//! The credential and the deadline rules of scripts.
ghost use Rattle.std.specs.Prelude.{◌≡◌, IfOk, option_map, ⊤};
ghost use Rattle.std.specs.Duration.{as_nanos};

use sequential_signer::{DeadlineRule, SigningCredential};
use sign_base::{EqualByValue, NoMemory, Timestamp};
use std::alloc::Global;
use std::time::Duration;

/// A credential that is written out in a script.
#[derive(Clone, Copy, Debug, PartialEq, Eq)]
pub struct ScriptCredential {
    pub generation: u64,
    /// It is valid before this moment.
    pub fresh: Timestamp,
    /// It is valid at every moment before this one, whatever the time is.
    pub expires: Timestamp,
    /// What the rule `cred` asks for.
    pub required: Timestamp,
}

impl SigningCredential for ScriptCredential {
    ghost use Rattle.signctl_format.specs.Policy.{script_valid, script_valid_at};

    const NAME: &'static str = "ScriptCredential";

    ghost valid = { script_valid };

    ghost valid_at = { script_valid_at };

    ghost clones_freely = { λ _. ⊤ };

    fn is_valid(&self, now: Timestamp) -> bool {
        now < self.fresh
    }

    fn is_valid_at(&self, ts: Timestamp, _now: Timestamp) -> bool {
        ts < self.expires
    }

    fn try_clone(&self, _alloc: Global) -> Result<ScriptCredential, NoMemory<()>> {
        Ok(*self)
    }
}

impl EqualByValue for ScriptCredential {
    ghost use Rattle.signctl_format.specs.SameCredential.{same_credential};

    ghost by_value = { same_credential };
}

/// How long a credential has to last.
#[derive(Clone, Copy, Debug, PartialEq, Eq)]
pub enum ScriptRule {
    /// To the end of the operation.
    Now,
    /// To the moment that the credential itself names.
    Cred,
}

impl ScriptRule {
    ghost use Rattle.signctl_format.specs.ScriptSetup.{place_of_rule};

    /// The place of the rule among the two of a script.
    pub fn place(self) -> u32
        ensures { result ≡ place_of_rule self }
    {
        match self {
            ScriptRule::Now => 0,
            ScriptRule::Cred => 1,
        }
    }
}

impl DeadlineRule for ScriptRule {
    ghost use Rattle.signctl_format.specs.Policy.{script_deadline};

    type Credential = ScriptCredential;

    ghost deadline = { script_deadline };

    fn required_valid_until(
        &self,
        credential: &ScriptCredential,
        expires_in: Option<Duration>,
        now: Timestamp,
    ) -> Option<Timestamp> {
        match self {
            ScriptRule::Now => match expires_in {
                Some(duration) => now.checked_add(duration),
                None => Some(now),
            },
            ScriptRule::Cred => Some(credential.required),
        }
    }
}

impl EqualByValue for ScriptRule {
    ghost use Rattle.std.proofs.Common.{rules};

    ghost by_value = { Prim.search rules };
}
