//! The names of the headers of a head, as a view shows them: in lower case, each once, ascending.
//!
//! `http` would make a map of the headers for that. The names alone are cut out of one text and sorted.
ghost use Rattle.std.specs.Prelude.{◌≡◌, IfOk, map};
ghost use Rattle.http_header.specs.Token.{lowercase};
ghost use Rattle.sign_request.specs.Headers.{sorted_names};
ghost use Rattle.sign_request.specs.PlainHead.{header_map};
ghost use Rattle.sigv4_canonical.specs.SortedHeaders.{lowercase_names};
ghost use Rattle.signctl_by_line.specs.HeadNames.{lowercase_each};

use sign_base::Fields;
use std::alloc::{AllocError, Global};

/// Room for the names of most heads.
const ROOM: usize = 128;

/// The names in lower case, one after another.
pub(crate) fn lowercase_text(alloc: Global, fields: &Fields) -> Result<Vec<u8>, AllocError>
    ensures { IfOk result (λ text. text.items ≡ lowercase_names fields.now) }
{
    let mut text = Vec::with_capacity(alloc, ROOM)?;
    for field in fields.as_slice() {
        text.extend_from_slice(field.name.as_slice())?;
    }
    Ok(in_lower_case(text))
}

fn in_lower_case(mut text: Vec<u8>) -> Vec<u8>
    ensures { result.items ≡ lowercase text.items }
{
    text.make_ascii_lowercase();
    text
}

/// The names that stand in this text, each once, ascending.
pub(crate) fn distinct_names<'a>(
    alloc: Global,
    fields: &Fields,
    text: &'a [u8],
) -> Result<Vec<&'a [u8]>, AllocError>
    requires { text.now ≡ lowercase_names fields.now }
    ensures { IfOk result
        (λ names. map (λ name. name.now) names.items ≡ sorted_names (header_map fields.now)) }
{
    let mut names = cut_names(alloc, fields, text)?;
    names.sort_unstable();
    names.dedup();
    Ok(names)
}

fn cut_names<'a>(
    alloc: Global,
    fields: &Fields,
    text: &'a [u8],
) -> Result<Vec<&'a [u8]>, AllocError>
    requires { text.now ≡ lowercase_names fields.now }
    ensures { IfOk result (λ names. map (λ name. name.now) names.items ≡ lowercase_each fields.now) }
{
    let mut names = Vec::with_capacity(alloc, fields.as_slice().len())?;
    let mut rest = text;
    for field in fields.as_slice() {
        let (name, more) = rest.split_at(field.name.as_slice().len());
        names.push(name)?;
        rest = more;
    }
    Ok(names)
}
