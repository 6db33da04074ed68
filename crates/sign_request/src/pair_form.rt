//! Pairs written one after another.
ghost use Rattle.std.specs.Prelude.{◌≡◌, ◌++◌, IfOk, OnOk, map, string_bytes};
ghost use Rattle.sign_request.specs.Query.{decoded_text, text_pair, text_pairs};
ghost use Rattle.sign_request.specs.CanonicalText.{joined_texts};
ghost use Rattle.sign_request.specs.PairForm.{pair_text};

use crate::decode::decode;
use std::alloc::{AllocError, Global};

/// How a pair is written.
#[derive(Clone, Copy)]
pub(crate) enum PairForm {
    /// A header, whose separator is always written.
    Header,
    /// A query parameter, with no separator before an empty value.
    Parameter,
    /// The same, with the value decoded once.
    DecodedParameter,
}

/// The pairs as they stand, each in the given form, joined.
pub(crate) fn write_pairs(
    alloc: Global,
    pairs: &[(String, String)],
    form: PairForm,
    sep: &str,
    join: &str,
) -> Result<String, AllocError>
    ensures { IfOk result (λ text. string_bytes text
        ≡ joined_texts join.now (map (pair_text form sep.now) (text_pairs pairs.now))) }
{
    let mut text = String::new(alloc);
    for (i, pair) in pairs.iter().enumerate() {
        if i != 0 {
            text.push_str(join)?;
        }
        push_pair(&mut text, pair, form, sep)?;
    }
    Ok(text)
}

/// Appends one pair.
fn push_pair(
    text: &mut String,
    pair: &(String, String),
    form: PairForm,
    sep: &str,
) -> Result<(), AllocError>
    ensures { OnOk result (string_bytes text.new
        ≡ string_bytes text.old ++ pair_text form sep.now (text_pair pair.now)) }
{
    let (key, value) = pair;
    text.push_str(key.as_str())?;
    if value.is_empty() && !matches!(form, PairForm::Header) {
        return Ok(());
    }
    text.push_str(sep)?;
    match form {
        PairForm::Header | PairForm::Parameter => text.push_str(value.as_str()),
        PairForm::DecodedParameter => push_decoded(text, value.as_str()),
    }
}

/// Appends a value decoded once.
fn push_decoded(text: &mut String, value: &str) -> Result<(), AllocError>
    ensures { OnOk result (string_bytes text.new
        ≡ string_bytes text.old ++ decoded_text value.now) }
{
    let plain = decode(*text.allocator(), value)?;
    text.push_str(plain.as_str())
}
