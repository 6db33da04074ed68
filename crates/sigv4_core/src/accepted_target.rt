//! The target of a head that `http` accepts.
//!
//! `http` accepts what its header map takes. A map refuses a header that is malformed, and a name for
//! which it has no room, which cannot come while the headers are few.
ghost use Rattle.std.specs.Prelude.{◌≡◌, ◌≢◌, ◌⊎◌, Some, None, true, false, IfOk, IfErr, OnOk};
ghost use Rattle.std.specs.List.{list_all};
ghost use Rattle.http_header.specs.FieldName.{is_field_name};
ghost use Rattle.http_header.specs.Token.{is_value_byte};
ghost use Rattle.sign_base.specs.declared.error_kind.ErrorKind.TheVariants.{OutOfMemory};
ghost use Rattle.sign_request.specs.AcceptedHead.{is_token, is_accepted_head};
ghost use Rattle.sign_request.specs.PlainTarget.{plain_target, target_of};
ghost use Rattle.sigv4_core.specs.FewHeaders.{is_well_formed, is_well_formed_head};

use crate::SigError;
use http::header::MAX_KEYS;
use http::request::Parts;
use http::uri::{Uri, UriError};
use http_header::MAX_HEADER_NAME_LEN;
use sign_base::{Error, ErrorKind, Field, Head};
use sign_request::{HeaderSeeds, parts_of_seeded};
use std::alloc::Global;

/// The target of an accepted head. The keys are for the names of the headers where those are more
/// than a map may have; no answer depends on them.
pub(crate) fn accepted_target(
    alloc: Global,
    head: &Head,
    keys: HeaderSeeds,
) -> Result<Uri, SigError>
    ensures accepted { OnOk result (is_accepted_head head.now ≡ true) }
    ensures target { IfOk result (λ uri. target_of head.now.uri ≡ Some (plain_target uri)) }
    ensures err { IfErr result (λ why. (why ≡ SigError.OutOfMemory)
        ⊎ ((why ≡ SigError.Head) × (is_accepted_head head.now ≡ false))) }
{
    if head.headers.as_slice().len() > MAX_KEYS {
        return target_by_map(alloc, head, keys);
    }
    if !is_well_formed_head(head) {
        return Err(SigError::Head);
    }
    target_of(alloc, head.uri.as_slice())
}

/// The same, whatever the number of headers.
fn target_by_map(alloc: Global, head: &Head, keys: HeaderSeeds) -> Result<Uri, SigError>
    ensures accepted { OnOk result (is_accepted_head head.now ≡ true) }
    ensures target { IfOk result (λ uri. target_of head.now.uri ≡ Some (plain_target uri)) }
    ensures err { IfErr result (λ why. (why ≡ SigError.OutOfMemory)
        ⊎ ((why ≡ SigError.Head) × (is_accepted_head head.now ≡ false))) }
{
    match parts_of_seeded(alloc, head, keys) {
        Ok(parts) => Ok(uri_of(parts)),
        Err(e) => Err(head_refused(&e)),
    }
}

fn uri_of(parts: Parts) -> Uri
    ensures { result ≡ parts.uri }
{
    parts.uri
}

fn head_refused(error: &Error) -> SigError
    ensures memory { error.now.kind ≡ OutOfMemory → result ≡ SigError.OutOfMemory }
    ensures other { error.now.kind ≢ OutOfMemory → result ≡ SigError.Head }
{
    match error.kind() {
        ErrorKind::OutOfMemory => SigError::OutOfMemory,
        _ => SigError::Head,
    }
}

/// The target that a text spells.
fn target_of(alloc: Global, text: &[u8]) -> Result<Uri, SigError>
    ensures ok { IfOk result (λ uri. target_of text.now ≡ Some (plain_target uri)) }
    ensures err { IfErr result (λ why. (why ≡ SigError.OutOfMemory)
        ⊎ ((why ≡ SigError.Head) × (target_of text.now ≡ None))) }
{
    match Uri::from_bytes(alloc, text) {
        Ok(uri) => Ok(uri),
        Err(UriError::OutOfMemory) => Err(SigError::OutOfMemory),
        Err(UriError::Invalid(_)) => Err(SigError::Head),
    }
}

fn is_well_formed_head(head: &Head) -> bool
    ensures { result ≡ is_well_formed_head head.now }
{
    is_token(head.method.as_slice()) && are_well_formed(head.headers.as_slice())
}

fn are_well_formed(headers: &[Field]) -> bool
    ensures { result ≡ list_all is_well_formed headers.now }
{
    headers.iter().all(|field| is_well_formed(field))
}

fn is_well_formed(field: &Field) -> bool
    ensures { result ≡ is_well_formed field.now }
{
    is_field_name(field.name.as_slice()) && is_field_value(field.value.as_slice())
}

fn is_field_name(name: &[u8]) -> bool
    ensures { result ≡ is_field_name name.now }
{
    is_token(name) && name.len() <= MAX_HEADER_NAME_LEN
}

fn is_token(bytes: &[u8]) -> bool
    ensures { result ≡ is_token bytes.now }
{
    http_header::is_token(bytes)
}

// The loop has no early exit, so that it may be compiled to vector code.
fn is_field_value(value: &[u8]) -> bool
    ensures { result ≡ list_all is_value_byte value.now }
{
    let mut valid = true;
    for b in value {
        valid &= is_value_byte(*b);
    }
    valid
}

fn is_value_byte(b: u8) -> bool
    ensures { result ≡ is_value_byte b }
{
    b == b'\t' || (b >= b' ' && b != 0x7f)
}
