//! A load, as far as every desk goes alike: the check of what is found, and the count of answers.
ghost use Rattle.std.specs.Prelude.{◌≡◌, ◌<◌, IfSome, length, slice_get};

use crate::tables::{LiveCallView, Tables};
use sequential_signer::{DeadlineRule, Loader, SigningCredential, Why};
use sign_base::Timestamp;

impl<K: SigningCredential, D: DeadlineRule<Credential = K>, Q: Drop, H: Drop> Tables<K, D, Q, H> {
    ghost use Rattle.sequential_signer.specs.Policy.{policy_for};
    ghost use Rattle.desk_parts.specs.Places.{provider_count};
    ghost use Rattle.desk_parts.specs.HoldProgress.{desk_check, with_answer};
    ghost use Rattle.desk_parts.specs.IsCheck.{IsCheck};

    /// How many providers a cache asks at most.
    pub fn provider_count(&self, cache: u32) -> u32
        requires { cache < length self.now.loaders }
        ensures { IfSome (slice_get self.now.loaders cache) (λ loader. result ≡ provider_count loader) }
    {
        match self.loaders[cache as usize] {
            Loader::Single => 1,
            Loader::Chain(n) => n,
        }
    }

    /// The view with one more answer, of a call that had fewer answers than there are providers.
    pub fn with_answer(&self, view: LiveCallView) -> LiveCallView
        requires there { view.cache < length self.now.loaders }
        requires few { IfSome (slice_get self.now.loaders view.cache)
            (λ loader. view.answers < provider_count loader) }
        ensures { result ≡ with_answer view }
    {
        let provider_count = self.provider_count(view.cache);
        prove!(view.answers < provider_count);
        LiveCallView {
            answers: view.answers + 1,
            ..view
        }
    }

    /// What a credential that was found is good for. Whether it is fresh is not asked.
    pub fn check(&self, view: LiveCallView, now: Timestamp, found: &K) -> Result<(), Why>
        requires { view.rule < length self.now.rules }
        ensures { IsCheck
            (desk_check (policy_for K.SigningCredential D.DeadlineRule) self.now now view found.now)
            found.now result }
    {
        let rule = &self.rules[view.rule as usize];
        let Some(deadline) = rule.required_valid_until(found, view.expires_in, now) else {
            return Err(Why::Range);
        };
        if !found.is_valid_at(deadline, now) {
            return Err(Why::Short(deadline));
        }
        Ok(())
    }
}
