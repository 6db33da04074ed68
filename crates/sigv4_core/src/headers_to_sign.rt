//! The headers of a head that a signature covers.
ghost use Rattle.std.specs.Prelude.{◌≡◌, ◌++◌, ◌∷◌, ◌||◌, ℤ, [], IfOk, OnOk, bytes_eq, codes};
ghost use Rattle.std.specs.List.{list_any};
ghost use Rattle.sign_time.specs.Calendar.{civil_of};
ghost use Rattle.sign_time.specs.MomentText.{iso8601_text};
ghost use Rattle.http_header.specs.Token.{lowercase};
ghost use Rattle.sigv4_core.specs.SignedHead.{field, is_named, is_replaced, kept_headers, with_host};
ghost use Rattle.sigv4_core.specs.SignedHead.{headers_to_sign};

use sign_base::{Field, Fields, NoMemory, Octets};
use std::alloc::Global;

/// The headers of a head but for those that a signature replaces, then the host where they name none,
/// and the moment, by its text.
#[tactic(auto, unfolding(crate::specs::SignedHead::headers_to_sign))]
pub(crate) fn headers_to_sign(
    alloc: Global,
    authority: &str,
    date_time: &[u8],
    headers: &Fields,
) -> Result<Vec<Field>, NoMemory<()>>
    ensures { IfOk result (λ fields. (t : ℤ) → date_time.now ≡ iso8601_text (civil_of t)
        → fields.items ≡ headers_to_sign authority.now t headers.now) }
{
    let mut fields = kept_headers(alloc, headers)?;
    push_host(alloc, &mut fields, authority)?;
    fields.push(Field {
        name: Octets::from_slice(alloc, b"x-amz-date")?,
        value: Octets::from_slice(alloc, date_time)?,
    })?;
    Ok(fields)
}

/// The headers that a signature does not replace, with room for three more.
fn kept_headers(alloc: Global, headers: &Fields) -> Result<Vec<Field>, NoMemory<()>>
    ensures { IfOk result (λ fields. fields.items ≡ kept_headers headers.now) }
{
    let room = headers.as_slice().len().saturating_add(3);
    let mut fields = Vec::with_capacity(alloc, room)?;
    for field in headers.as_slice() {
        if !is_replaced(field) {
            fields.push(field.try_clone(alloc)?)?;
        }
    }
    Ok(fields)
}

/// Appends the host where no header names it.
fn push_host(alloc: Global, fields: &mut Vec<Field>, authority: &str) -> Result<(), NoMemory<()>>
    ensures { OnOk result (fields.new.items ≡ with_host authority.now fields.old.items) }
{
    if !names_host(fields.as_slice()) {
        fields.push(Field {
            name: Octets::from_slice(alloc, b"host")?,
            value: Octets::from_slice(alloc, authority.as_bytes())?,
        })?;
    }
    Ok(())
}

fn names_host(fields: &[Field]) -> bool
    ensures { result ≡ list_any (is_named (codes "host")) fields.now }
{
    fields.iter().any(|field| is_named(field, b"host"))
}

/// Whether a signature brings its own header of this name.
fn is_replaced(field: &Field) -> bool
    ensures { result ≡ is_replaced field.now }
{
    is_named(field, b"authorization") || is_named(field, b"x-amz-date")
}

/// Whether the header has this name, which is in lower case.
fn is_named(field: &Field, name: &[u8]) -> bool
    requires { lowercase name.now ≡ name.now }
    ensures { result ≡ is_named name.now field.now }
{
    field.name.as_slice().eq_ignore_ascii_case(name)
}
