//! The headers that a signature adds to a head, a line each.
ghost use Rattle.std.specs.Prelude.{◌≡◌, ◌++◌, IfOk, OnOk, drop, flat_map, length};
ghost use Rattle.http_header.specs.Token.{lowercase};
ghost use Rattle.sigv4_core.specs.SignedHead.{is_named, is_replaced, kept_headers};
ghost use Rattle.domreth_sign.specs.AddedLines.{field_line, added_lines};

use sign_base::{Field, NoMemory};
use std::alloc::Global;

/// The lines of the signed headers that are behind those that the signature kept of the old ones.
pub(crate) fn added_lines(
    alloc: Global,
    old: &[Field],
    signed: &[Field],
) -> Result<Vec<u8>, NoMemory<()>>
    ensures { IfOk result (λ text. text.items ≡ added_lines old.now signed.now) }
{
    let mut text = Vec::new(alloc);
    for field in behind(signed, kept_count(old)) {
        push_line(&mut text, field)?;
    }
    Ok(text)
}

/// The headers but for so many in front.
fn behind(headers: &[Field], count: usize) -> &[Field]
    ensures { result.now ≡ drop count headers.now }
{
    if count < headers.len() {
        &headers[count..]
    } else {
        &[]
    }
}

/// How many of the headers a signature keeps.
fn kept_count(headers: &[Field]) -> usize
    ensures { result ≡ length (kept_headers headers.now) }
{
    headers.iter().filter(|field| !is_replaced(field)).count()
}

/// Whether a signature brings its own header of this name.
fn is_replaced(field: &Field) -> bool
    ensures { result ≡ is_replaced field.now }
{
    is_named(field, b"authorization") || is_named(field, b"x-amz-date")
}

/// Whether the header has this name, which is in lower case.
fn is_named(field: &Field, name: &[u8]) -> bool
    requires { lowercase name.now ≡ name.now }
    ensures { result ≡ is_named name.now field.now }
{
    field.name.as_slice().eq_ignore_ascii_case(name)
}

fn push_line(text: &mut Vec<u8>, field: &Field) -> Result<(), NoMemory<()>>
    ensures { OnOk result (text.new.items ≡ text.old.items ++ field_line field.now) }
{
    text.extend_from_slice(field.name.as_slice())?;
    text.extend_from_slice(b": ")?;
    text.extend_from_slice(field.value.as_slice())?;
    text.extend_from_slice(b"\r\n")?;
    Ok(())
}
