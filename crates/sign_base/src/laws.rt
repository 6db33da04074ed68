//! What holds of the definitions themselves, each as the contract of a call that does nothing.
ghost use Rattle.std.specs.Prelude.{◌≡◌, ℤ, Some};
ghost use Rattle.std.specs.Ordering.{int_cmp, int_eq};
ghost use Rattle.std.specs.Hash as fed;
ghost use Rattle.sign_base.specs.Law.{RetriesRateLimitsAlone};

use crate::Timestamp;
use std::hash::Hash;

/// A new error is retryable exactly where its kind is `RateLimited`.
pub fn rate_limits_alone_are_retried()
    ensures { RetriesRateLimitsAlone }
{}

/// Moments are compared and hashed as their nanoseconds since 1970.
pub fn moments_are_compared_as_numbers()
    ensures eq { (s t : ℤ) → ⟦<Timestamp as PartialEq>⟧.eq s t ≡ int_eq s t }
    ensures partial_cmp { (s t : ℤ) → ⟦<Timestamp as PartialOrd>⟧.partial_cmp s t ≡ Some (int_cmp s t) }
    ensures cmp { (s t : ℤ) → ⟦<Timestamp as Ord>⟧.cmp s t ≡ int_cmp s t }
    ensures hash { (t : ℤ) → ⟦<Timestamp as Hash>⟧.hash_input t ≡ fed.i128 t }
{}
