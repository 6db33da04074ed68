//! Equality by value: what compares equal is the same.
ghost use Rattle.std.specs.Prelude.{◌≡◌, ◌≢◌, true, MatchBool};

/// A type whose values compare equal only where they are the same value. `Eq` alone promises an
/// equivalence.
pub trait EqualByValue: Eq {
    ghost by_value: { (x y : Self) → Self.PartialEq.eq x y ≡ true → x ≡ y };
}

/// Whether two values are the same.
pub fn is_same<T: EqualByValue>(a: &T, b: &T) -> bool
    ensures { MatchBool result (a.now ≡ b.now) (a.now ≢ b.now) }
{
    *a == *b
}

/// Whether two slices have the same values, in the same order.
pub fn are_same<T: EqualByValue>(a: &[T], b: &[T]) -> bool
    ensures { MatchBool result (a.now ≡ b.now) (a.now ≢ b.now) }
{
    a == b
}
