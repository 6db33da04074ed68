//! What follows for a caller, as the contract of a call.
ghost use Rattle.std.specs.Prelude.{◌≡◌, codes};

use crate::SessionCredential;
use sequential_signer::SigningCredential;

/// Errors of a signer name the type of the credential by its own name. The function answers the constant.
pub fn a_session_has_its_own_name() -> &'static str
    ensures { result.now ≡ codes "SessionCredential" }
{
    SessionCredential::NAME
}
