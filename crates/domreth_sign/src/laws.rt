//! What follows for a caller from what the calls promise. A function does nothing: its contract is the
//! law.
ghost use Rattle.std.specs.Prelude.{◌≡◌, ℕ, ℤ, List, length, IfOk};
ghost use Rattle.sign_base.specs.Moment.{moment_of_second};
ghost use Rattle.sigv4_core.specs.Signature.{date_of};
ghost use Rattle.domreth_sign.specs.Answers.{signed_lines, signed_lines_with};
ghost use Rattle.domreth_sign.specs.DerivedKeys.{derived_bytes, IsDerivedOf};
ghost use Rattle.domreth_sign.specs.declared.given.GivenDerived.{GivenDerived};
ghost use Rattle.domreth_sign.specs.declared.given.GivenHead.{GivenHead};
ghost use Rattle.domreth_sign.specs.declared.given.GivenKey.{GivenKey};

/// A key that is derived has 32 bytes.
pub fn a_derived_key_has_32_bytes()
    ensures { (key : GivenKey) (second : ℤ) → IfOk (derived_bytes key second) (λ bytes. length bytes ≡ 32) }
{}

/// Under a key that was derived at one second a head is signed at each second of that day as under the
/// secret, or refused for the same cause.
pub fn a_derived_key_signs_alike()
    ensures { (key : GivenKey) (derived : GivenDerived) (head : GivenHead) (word : List ℕ) (made now : ℤ)
        → IsDerivedOf key made derived → date_of (moment_of_second made) ≡ date_of (moment_of_second now)
        → signed_lines_with head derived word now ≡ signed_lines head key word now }
{}
