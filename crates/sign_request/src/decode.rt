//! Percent-decoding, once and lossily.
ghost use Rattle.std.specs.Prelude.{◌≡◌, IfOk, IsOkAnd};
ghost use Rattle.std.specs.Cow.{cow_str_bytes};
ghost use Rattle.percent_encoding.specs.Cow.{IsBorrowedStr};
ghost use Rattle.sign_request.specs.Query.{decoded_text, HasNoEscape};

use percent_encoding::percent_decode_str;
use std::alloc::{AllocError, Global};
use std::borrow::CowStr;

/// The text decoded once, with U+FFFD for each sequence that is not UTF-8. A text with nothing to
/// decode is lent.
#[tactic(auto, unfolding(crate::specs::Query::decoded_text))]
pub(crate) fn decode(alloc: Global, text: &str) -> Result<CowStr<'_, Global>, AllocError>
    ensures value { IfOk result (λ plain. cow_str_bytes plain ≡ decoded_text text.now) }
    ensures lends { HasNoEscape text.now → IsOkAnd result IsBorrowedStr }
{
    percent_decode_str(text).decode_utf8_lossy(alloc)
}
