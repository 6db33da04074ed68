//! The headers that a signature covers.
ghost use Rattle.std.specs.Prelude.{◌≡◌, IfOk, bytes_eq, nat_lt, length};
ghost use Rattle.std.specs.List.{list_any};
ghost use Rattle.http_header.specs.Token.{lowercase};
ghost use Rattle.sigv4_canonical.specs.CanonicalHeaders.{signed_headers};
ghost use Rattle.sigv4_core.specs.SignedHead.{is_named};
ghost use Rattle.sigv4_verify.specs.SignedForm.{listed, is_listed, is_list_of, most_name_bytes};

use crate::signed_form::is_named;
use sign_base::{Field, Fields, NoMemory};
use std::alloc::Global;

/// The longest list of names that is read, in bytes, so that a head takes no more than that for each header.
const MOST_NAME_BYTES: usize = 8_192;

/// Whether a list of names is longer than is read.
pub(crate) fn is_too_long(names: &[u8]) -> bool
    ensures { result ≡ nat_lt most_name_bytes (length names.now) }
{
    names.len() > MOST_NAME_BYTES
}

/// The headers that a list names, in order.
pub(crate) fn listed(alloc: Global, headers: &[Field], names: &[u8]) -> Result<Fields, NoMemory<()>>
    ensures { IfOk result (λ fields. fields ≡ listed names.now headers.now) }
{
    let mut fields = Vec::new(alloc);
    for field in headers {
        if is_listed(field, names) {
            fields.push(field.try_clone(alloc)?)?;
        }
    }
    Ok(Fields::from_vec(fields))
}

/// Whether a list names the header.
fn is_listed(field: &Field, names: &[u8]) -> bool
    ensures { result ≡ is_listed names.now field.now }
{
    names
        .split(|b| *b == b';')
        .any(|name| is_called(field, name))
}

fn is_called(field: &Field, name: &[u8]) -> bool
    ensures { result ≡ bytes_eq (lowercase name.now) (lowercase field.now.name) }
{
    name.eq_ignore_ascii_case(field.name.as_slice())
}

/// Whether a list is that of these headers, whose names are spelled so, and has the host and the date.
pub(crate) fn is_list_of(fields: &[Field], spelled: &[u8], names: &[u8]) -> bool
    requires { spelled.now ≡ signed_headers fields.now }
    ensures { result ≡ is_list_of fields.now names.now }
{
    names == spelled && has_named(fields, b"host") && has_named(fields, b"x-amz-date")
}

fn has_named(fields: &[Field], name: &[u8]) -> bool
    requires { lowercase name.now ≡ name.now }
    ensures { result ≡ list_any (is_named name.now) fields.now }
{
    fields.iter().any(|field| is_named(field, name))
}
