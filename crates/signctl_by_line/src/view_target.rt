//! The target of a head that has a view, by the call that tests whether it can be signed.
//!
//! That call makes no map of the headers. It is asked as for an object store, whose service signs each path
//! as it is spelled, so that no head is refused for its path.
ghost use Rattle.std.specs.Prelude.{◌≡◌, ◌⊎◌, Ok, Err, IfOk, IfErr, codes};
ghost use Rattle.sign_request.specs.PlainTarget.{plain_target};
ghost use Rattle.sign_request.specs.PlainView.{view_of};
ghost use Rattle.signctl_by_line.specs.ViewTarget.{refusal_as, viewed_at};

use http::uri::Uri;
use sign_base::{Error, Head};
use sign_request::{HeaderSeeds, ViewRefusal};
use sigv4_core::{SigError, SigScope, target_to_sign};
use std::alloc::Global;

/// The target of a head, or why the head has no view. No answer depends on the keys.
pub(crate) fn view_target(alloc: Global, head: &Head, keys: HeaderSeeds) -> Result<Uri, ViewRefusal>
    ensures ok { IfOk result (λ uri. view_of head.now ≡ Ok (viewed_at head.now (plain_target uri))) }
    ensures err { IfErr result
        (λ why. (why ≡ ViewRefusal.OutOfMemory) ⊎ (view_of head.now ≡ Err why)) }
{
    let Ok(scope) = scope_of_a_store(alloc) else {
        return Err(ViewRefusal::OutOfMemory);
    };
    let found = target_to_sign(alloc, head, &scope, keys);
    drop(scope);
    match found {
        Ok(uri) => Ok(uri),
        Err(why) => Err(refusal_as(why)),
    }
}

/// The scope of an object store. A target does not depend on the region.
fn scope_of_a_store(alloc: Global) -> Result<SigScope, Error>
    ensures { IfOk result (λ scope. scope.service ≡ codes "s3") }
{
    SigScope::new(alloc, b"any", b"s3")
}

fn refusal_as(why: SigError) -> ViewRefusal
    ensures { result ≡ refusal_as why }
{
    match why {
        SigError::Authority => ViewRefusal::Authority,
        SigError::OutOfMemory => ViewRefusal::OutOfMemory,
        SigError::Head | SigError::Path | SigError::Moment => ViewRefusal::Head,
    }
}
