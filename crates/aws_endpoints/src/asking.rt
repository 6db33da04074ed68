//! Requests that ask an endpoint.
ghost use Rattle.std.specs.Prelude.{◌≡◌, ◌≢◌, ◌⊎◌, ◌++◌, [], false, IfOk, IfErr, codes};
ghost use Rattle.sign_base.specs.Error.{new_error};
ghost use Rattle.sign_base.specs.Refusal.{IsErrorOf};
ghost use Rattle.sign_base.specs.declared.error_kind.ErrorKind.TheVariants.{CredentialInvalid, OutOfMemory};
ghost use Rattle.sign_request.specs.AcceptedHead.{is_accepted_head};
ghost use Rattle.sign_request.specs.PlainHead.{ArePartsOf};
ghost use Rattle.aws_endpoints.specs.Asking.{IsBegun, no_request};

use crate::HasSender;
use crate::refused::refused;
use bytes::Bytes;
use http::Request;
use http::request::Parts;
use sign_base::{Error, ErrorKind, Head};
use sign_request::parts_of;
use std::alloc::Global;

/// Begins to send a request of this head, with no body.
pub fn begin<X: HasSender>(
    alloc: Global,
    ctx: &X,
    place: &str,
    head: &Head,
) -> Result<X::Send, Error>
    ensures { IsBegun (X.begun ctx.now) head.now place.now result }
{
    let parts = accepted(alloc, place, head)?;
    Ok(ctx.http_send(alloc, Request::from_parts(parts, Bytes::new()))?)
}

/// The head as `http` has it.
fn accepted(alloc: Global, place: &str, head: &Head) -> Result<Parts, Error>
    ensures ok { IfOk result (ArePartsOf head.now) }
    ensures err { IfErr result (λ e. ((is_accepted_head head.now ≡ false) × (e ≡ no_request place.now))
        ⊎ (e ≡ new_error OutOfMemory [])) }
{
    match parts_of(alloc, head) {
        Ok(parts) => Ok(parts),
        Err(error) => Err(not_accepted(alloc, place, error)),
    }
}

/// The error that no request can be made, or that there is no memory where this error says so.
fn not_accepted(alloc: Global, place: &str, error: Error) -> Error
    ensures memory { error.kind ≡ OutOfMemory → result ≡ new_error OutOfMemory [] }
    ensures other { error.kind ≢ OutOfMemory
        → IsErrorOf CredentialInvalid (codes "no request can be made for " ++ place.now) result }
{
    let kind = error.kind();
    drop(error);
    if kind == ErrorKind::OutOfMemory {
        return Error::out_of_memory();
    }
    refused(alloc, "no request can be made for ", place)
}
