//! Percent-encoding as a signature has it.
ghost use Rattle.std.specs.Prelude.{◌≡◌, ◌++◌, IfOk, OnOk, string_bytes};
ghost use Rattle.std.specs.List.{list_all};
ghost use Rattle.sigv4_canonical.specs.Encoding.{is_unreserved, percent_encoded, encoded_anew};

use percent_encoding::{AsciiSet, NON_ALPHANUMERIC, ascii_set, percent_decode, percent_encode};
use sign_base::{NoMemory, Octets};
use std::alloc::{AllocError, Global};

/// The ASCII bytes that are not unreserved (RFC 3986, 2.3).
const RESERVED: AsciiSet = ascii_set!(
    NON_ALPHANUMERIC
        .remove(b'-')
        .remove(b'.')
        .remove(b'_')
        .remove(b'~')
);

/// The bytes with each but the unreserved ones of RFC 3986 as `%` and two upper-case hexadecimal
/// digits. A slash becomes `%2F`.
pub fn encode(alloc: Global, side: &[u8]) -> Result<Octets, NoMemory<()>>
    ensures { IfOk result (λ text. text ≡ percent_encoded side.now) }
{
    let mut text = String::new(alloc);
    push_encoded(&mut text, side)?;
    Ok(Octets::from_vec(text.into_bytes()))
}

/// Appends the bytes, encoded.
pub(crate) fn push_encoded(text: &mut String, side: &[u8]) -> Result<(), AllocError>
    ensures { OnOk result (string_bytes text.new ≡ string_bytes text.old ++ percent_encoded side.now) }
{
    percent_encode(side, RESERVED).append_to(text)
}

/// Appends the bytes, decoded once and encoded. What has no escape is not copied in between.
pub(crate) fn push_encoded_anew(
    alloc: Global,
    text: &mut String,
    side: &[u8],
) -> Result<(), AllocError>
    ensures { OnOk result (string_bytes text.new ≡ string_bytes text.old ++ encoded_anew side.now) }
{
    if is_unreserved(side) {
        if let Ok(side) = str::from_utf8(side) {
            return text.push_str(side);
        }
    }
    let decoded = percent_decode(side).into_cow(alloc)?;
    push_encoded(text, decoded.as_slice())
}

/// Whether each byte is unreserved, so that decoding and encoding leave the bytes as they are.
// The loop has no early exit, so that it may be compiled to vector code.
fn is_unreserved(side: &[u8]) -> bool
    ensures { result ≡ list_all is_unreserved side.now }
{
    let mut all = true;
    for b in side {
        all &= is_unreserved_byte(*b);
    }
    all
}

// `|` rather than `||`: a chain of exits is dear to prove.
fn is_unreserved_byte(b: u8) -> bool
    ensures { result ≡ is_unreserved b }
{
    let marks = (b == b'-') | (b == b'.') | (b == b'_') | (b == b'~');
    b.is_ascii_alphanumeric() | marks
}
