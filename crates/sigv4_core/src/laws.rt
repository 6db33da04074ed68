//! What follows for a caller from what the calls promise. A function does nothing: its contract is
//! the law.
ghost use Rattle.std.specs.Prelude.{◌≡◌, ℕ, ℤ, List, codes};
ghost use Rattle.sign_base.specs.declared.head.Head.{Head};
ghost use Rattle.sigv4_core.specs.Credential.{Credential};
ghost use Rattle.sigv4_core.specs.Scope.{Scope};
ghost use Rattle.sigv4_core.specs.Signature.{date_of, derived_key};
ghost use Rattle.sigv4_core.specs.SignedHead.{signing_with, signing_of};

use crate::SigCredential;
use sequential_signer::SigningCredential;

/// Errors of a signer name the type of the credential by its own name. The function answers the constant.
pub fn a_credential_type_has_its_own_name() -> &'static str
    ensures { result.now ≡ codes "SigCredential" }
{
    SigCredential::NAME
}

/// A head is signed under a derived key as `sign_head` signs it, at every moment of the key's day.
pub fn a_derived_key_signs_alike()
    ensures { (credential : Credential) (scope : Scope) (word : List ℕ) (derived now : ℤ) (head : Head)
        → date_of derived ≡ date_of now
        → signing_with (derived_key credential scope derived) word now head
        ≡ signing_of credential scope word now head }
{}
