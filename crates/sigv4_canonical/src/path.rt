//! The path of a canonical request.
ghost use Rattle.std.specs.Prelude.{◌≡◌, IfOk, string_bytes};
ghost use Rattle.sigv4_canonical.specs.CanonicalTarget.{canonical_path};

use crate::encoding::push_encoded_anew;
use sign_base::NoMemory;
use std::alloc::Global;

/// The segments of a path, each decoded once and encoded.
pub(crate) fn canonical_path(alloc: Global, path: &[u8]) -> Result<String, NoMemory<()>>
    ensures { IfOk result (λ text. string_bytes text ≡ canonical_path path.now) }
{
    let mut text = String::with_capacity(alloc, path.len())?;
    let mut first = true;
    for segment in path.split(|b| *b == b'/') {
        if !first {
            text.push_str("/")?;
        }
        push_encoded_anew(alloc, &mut text, segment)?;
        first = false;
    }
    Ok(text)
}
