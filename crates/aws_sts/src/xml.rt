//! Texts of elements in XML, as far as an answer of STS needs them.
ghost use Rattle.std.specs.Prelude.{◌≡◌, IfOk, drop, option_map, string_bytes};
ghost use Rattle.std.specs.List.{list_any};
ghost use Rattle.sign_request.specs.Query.{is_ampersand};
ghost use Rattle.aws_sts.specs.RoleAnswer.{first_piece, element_text};

use sign_base::NoMemory;
use std::alloc::Global;

/// The text of the first element with this closing tag, as `/Name>`, up to the next tag, decoded lossily.
/// None where one of its tags is not there, as in a text that is cut off, or where the text has a reference.
#[tactic(auto, unfolding(crate::specs::RoleAnswer::element_text))]
pub(crate) fn element_text(
    alloc: Global,
    xml: &[u8],
    closing: &[u8],
) -> Result<Option<String>, NoMemory<()>>
    ensures { IfOk result (λ text. option_map string_bytes text ≡ element_text closing.now xml.now) }
{
    if first_piece(xml, closing).is_none() {
        return Ok(None);
    }
    let opening = behind(closing, 1);
    let Some(piece) = first_piece(xml, opening) else {
        return Ok(None);
    };
    let text = behind(piece, opening.len());
    if has_reference(text) {
        return Ok(None);
    }
    Ok(Some(String::from_utf8_lossy(alloc, text)?))
}

fn first_piece<'a>(xml: &'a [u8], tag: &[u8]) -> Option<&'a [u8]>
    ensures { option_map (λ piece. piece.now) result ≡ first_piece tag.now xml.now }
{
    xml.split(|b| *b == b'<')
        .find(|piece| piece.starts_with(tag))
}

/// What is left of a text behind so many bytes.
fn behind(text: &[u8], count: usize) -> &[u8]
    ensures { result.now ≡ drop count text.now }
{
    if count > text.len() {
        return &[];
    }
    text.split_at(count).1
}

fn has_reference(text: &[u8]) -> bool
    ensures { result ≡ list_any is_ampersand text.now }
{
    text.iter().any(|b| *b == b'&')
}
