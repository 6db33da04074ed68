//! The look of a call at its cache, when its turn has come.
ghost use Rattle.std.specs.Prelude.{◌≢◌, ◌<◌, length};

use crate::tables::{LiveCallView, Tables};
use sequential_signer::{DeadlineRule, Loader, SigningCredential, Why};
use sign_base::Timestamp;

/// What a look at a cache gives.
#[derive(Drop)]
pub enum Lookup<K> {
    /// The credential could be handed out, but an allocation failed.
    OutOfMemory,
    /// The call loads.
    Miss,
    /// The cached credential serves.
    Hit(K),
    /// The call is refused.
    Refused(Why),
}

impl<K: SigningCredential, D: DeadlineRule<Credential = K>, Q: Drop, H: Drop> Tables<K, D, Q, H> {
    ghost use Rattle.sequential_signer.specs.Policy.{policy_for};
    ghost use Rattle.desk_parts.specs.HoldProgress.{desk_lookup};
    ghost use Rattle.desk_parts.specs.IsLookup.{IsLookup};
    ghost use Rattle.desk_parts.specs.Memory.{ClonesAreFree};
    ghost use Rattle.desk_parts.specs.declared.lookup.Lookup.TheVariants.{OutOfMemory};

    /// What its cache holds for the call now.
    pub fn look(&self, view: LiveCallView, now: Timestamp) -> Lookup<K>
        requires loader { view.cache < length self.now.loaders }
        requires cache { view.cache < length self.now.caches }
        requires rule { view.rule < length self.now.rules }
        ensures lookup { IsLookup
            (desk_lookup (policy_for K.SigningCredential D.DeadlineRule) self.now now view) result }
        ensures memory { ClonesAreFree K.clones_freely → result ≢ OutOfMemory }
    {
        let rule = &self.rules[view.rule as usize];
        if let Some(credential) = &self.caches[view.cache as usize]
            && credential.is_valid(now)
        {
            let Some(deadline) = rule.required_valid_until(credential, view.expires_in, now) else {
                return Lookup::Refused(Why::Range);
            };
            if credential.is_valid_at(deadline, now) {
                return match credential.try_clone(self.alloc) {
                    Ok(credential) => Lookup::Hit(credential),
                    Err(_) => Lookup::OutOfMemory,
                };
            }
        }
        match self.loaders[view.cache as usize] {
            Loader::Chain(0) => Lookup::Refused(Why::Missing),
            Loader::Chain(_) | Loader::Single => Lookup::Miss,
        }
    }
}
