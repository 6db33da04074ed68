//! What a head says of its signature.
ghost use Rattle.std.specs.Prelude.{◌≡◌, IfOk, option_map};
ghost use Rattle.std.specs.List.{count_by, find};
ghost use Rattle.http_header.specs.Token.{lowercase};
ghost use Rattle.sigv4_core.specs.SignedHead.{is_named};
ghost use Rattle.sigv4_verify.specs.SignedForm.{GivesForm, sole_value};

use crate::authorization::authorization_of;
use sign_base::{Field, NoMemory, Octets, Timestamp};
use sigv4_presign::moment_of_text;
use std::alloc::Global;

/// By which credential a signature is, of which headers, which it is, and of which second.
#[derive(Drop)]
pub(crate) struct SignedForm {
    pub credential: Octets,
    pub names: Octets,
    pub signature: Octets,
    pub date: Timestamp,
}

/// What headers say of their signature, if they say all.
pub(crate) fn form_of(alloc: Global, headers: &[Field]) -> Result<Option<SignedForm>, NoMemory<()>>
    ensures { IfOk result (GivesForm headers.now) }
{
    let Some(value) = sole_value(headers, b"authorization") else {
        return Ok(None);
    };
    let Some(parts) = authorization_of(value) else {
        return Ok(None);
    };
    let Some(text) = sole_value(headers, b"x-amz-date") else {
        return Ok(None);
    };
    let Some(date) = moment_of_text(alloc, text)? else {
        return Ok(None);
    };
    Ok(Some(SignedForm {
        credential: Octets::from_slice(alloc, parts.credential)?,
        names: Octets::from_slice(alloc, parts.names)?,
        signature: Octets::from_slice(alloc, parts.signature)?,
        date,
    }))
}

/// The value of a header that stands once. The name is in lower case.
fn sole_value<'a>(headers: &'a [Field], name: &[u8]) -> Option<&'a [u8]>
    requires { lowercase name.now ≡ name.now }
    ensures { option_map (λ v. v.now) result ≡ sole_value name.now headers.now }
{
    if count_named(headers, name) != 1 {
        return None;
    }
    match first_named(headers, name) {
        Some(field) => Some(field.value.as_slice()),
        None => None,
    }
}

fn count_named(headers: &[Field], name: &[u8]) -> usize
    requires { lowercase name.now ≡ name.now }
    ensures { result ≡ count_by (is_named name.now) headers.now }
{
    headers.iter().filter(|field| is_named(field, name)).count()
}

fn first_named<'a>(headers: &'a [Field], name: &[u8]) -> Option<&'a Field>
    requires { lowercase name.now ≡ name.now }
    ensures { option_map (λ f. f.now) result ≡ find (is_named name.now) headers.now }
{
    headers.iter().find(|field| is_named(field, name))
}

/// Whether the header has this name, which is in lower case.
pub(crate) fn is_named(field: &Field, name: &[u8]) -> bool
    requires { lowercase name.now ≡ name.now }
    ensures { result ≡ is_named name.now field.now }
{
    field.name.as_slice().eq_ignore_ascii_case(name)
}
