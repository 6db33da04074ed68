//! What follows for a caller from what the calls promise. The function does nothing: its contract is the
//! law.
ghost use Rattle.std.specs.Prelude.{◌≡◌, ◌↔◌, ℕ, ℤ, pos, ◌+ℤ◌, ◌-ℤ◌, ◌<ℤ◌, List};
ghost use Rattle.sign_base.specs.declared.head.Head.{Head};
ghost use Rattle.sign_time.specs.MomentRead.{whole_second};
ghost use Rattle.sigv4_core.specs.Credential.{Credential};
ghost use Rattle.sigv4_core.specs.Scope.{Scope};
ghost use Rattle.sigv4_verify.specs.CheckedHead.{IsFound};
ghost use Rattle.sigv4_verify.specs.SignedLaw.{WasSigned, IsWithin};
ghost use Rattle.sigv4_verify.specs.declared.checked_head.CheckedHead.{CheckedHead};
ghost use Rattle.sigv4_verify.specs.declared.checked_head.CheckedHead.TheVariants.{Early, Late, Valid};

/// A head that `sign_head` signed is found valid, by the same credential, for the same scope and payload,
/// exactly within the tolerance around the whole second of its signature; where the clock is further behind
/// it is `Early`, and where it is further ahead `Late`.
pub fn a_signed_head_is_valid_for_its_second()
    ensures valid { (keys : Credential) (scope : Scope) (word : List ℕ) (now u : ℤ) (tolerance : ℕ)
        (head signed : Head) (found : CheckedHead) → WasSigned keys scope word now head signed
        → IsFound keys scope word (u -ℤ pos tolerance) (u +ℤ pos tolerance) signed found
        → (found ≡ Valid) ↔ IsWithin now tolerance u }
    ensures early { (keys : Credential) (scope : Scope) (word : List ℕ) (now u : ℤ) (tolerance : ℕ)
        (head signed : Head) (found : CheckedHead) → WasSigned keys scope word now head signed
        → IsFound keys scope word (u -ℤ pos tolerance) (u +ℤ pos tolerance) signed found
        → (u +ℤ pos tolerance) <ℤ whole_second now → found ≡ Early }
    ensures late { (keys : Credential) (scope : Scope) (word : List ℕ) (now u : ℤ) (tolerance : ℕ)
        (head signed : Head) (found : CheckedHead) → WasSigned keys scope word now head signed
        → IsFound keys scope word (u -ℤ pos tolerance) (u +ℤ pos tolerance) signed found
        → whole_second now <ℤ (u -ℤ pos tolerance) → found ≡ Late }
{}
