//! A request that is signed and arrives, as an example that is proved: what is found at it is a matter of
//! time alone.
ghost use Rattle.std.specs.Prelude.{◌≡◌, ◌↔◌, IfOk};
ghost use Rattle.std.specs.Duration.{as_nanos};
ghost use Rattle.sign_base.specs.declared.head.Head.{Head};
ghost use Rattle.sigv4_verify.specs.SignedLaw.{WasSigned, IsWithin};

use crate::{CheckedHead, verify_head};
use sign_base::{Head, Timestamp};
use sigv4_core::{Payload, SigCredential, SigError, SigScope, sign_head};
use std::alloc::Global;
use std::time::Duration;

/// Signs a head, and checks what was signed.
pub fn signed_and_checked(
    alloc: Global,
    head: &Head,
    credential: &SigCredential,
    scope: &SigScope,
    payload: &Payload,
    made: Timestamp,
    arrived: Timestamp,
    tolerance: Duration,
) -> Result<CheckedHead, SigError>
    ensures { IfOk result (λ found. (signed : Head)
        → WasSigned credential.now scope.now payload.now made head.now signed
        → (found ≡ CheckedHead.Valid) ↔ IsWithin made (as_nanos tolerance) arrived) }
{
    let signed = sign_head(alloc, head, credential, scope, payload, made)?;
    Ok(verify_head(
        alloc, &signed, credential, scope, payload, arrived, tolerance,
    )?)
}
