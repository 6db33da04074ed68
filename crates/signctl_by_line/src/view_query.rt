//! The query of a view as one text: its pairs sorted, each key and value joined by `=`, the pairs by `&`, and
//! no `=` before an empty value.
ghost use Rattle.std.specs.Prelude.{◌≡◌, ◌++◌, IfOk, OnOk, codes, map};
ghost use Rattle.sign_request.specs.CanonicalText.{canonical_text, joined_texts, parameter_text};
ghost use Rattle.sigv4_canonical.specs.EncodedPairs.{shown_pair, shown_pairs};
ghost use Rattle.signctl_by_line.specs.LentPairs.{lent_pairs};

use crate::view_pairs::LentPair;
use sign_base::NoMemory;
use std::alloc::{AllocError, Global};

/// A key and its value as bytes. They are in order by key, and then by value.
type Sides<'a> = (&'a [u8], &'a [u8]);

/// The text of pairs whose sides have about so many bytes.
#[tactic(auto, unfolding(sign_request::specs::CanonicalText::canonical_text))]
pub(crate) fn query_text(
    alloc: Global,
    size: usize,
    pairs: &[LentPair<'_>],
) -> Result<Vec<u8>, NoMemory<()>>
    ensures { IfOk result (λ text. text.items
        ≡ canonical_text (parameter_text (codes "=")) (codes "&") (lent_pairs pairs.now)) }
{
    let mut sides = sides_of(alloc, pairs)?;
    sides.sort_unstable();
    Ok(join_sides(alloc, size, sides.as_slice())?)
}

fn sides_of<'a>(alloc: Global, pairs: &'a [LentPair<'_>]) -> Result<Vec<Sides<'a>>, AllocError>
    ensures { IfOk result (λ sides. shown_pairs sides.items ≡ lent_pairs pairs.now) }
{
    let mut sides = Vec::with_capacity(alloc, pairs.len())?;
    for (key, value) in pairs {
        sides.push((key.as_str().as_bytes(), value.as_str().as_bytes()))?;
    }
    Ok(sides)
}

fn join_sides(alloc: Global, size: usize, pairs: &[Sides<'_>]) -> Result<Vec<u8>, AllocError>
    ensures { IfOk result (λ text. text.items
        ≡ joined_texts (codes "&") (map (parameter_text (codes "=")) (shown_pairs pairs.now))) }
{
    let ends = pairs.len().saturating_mul(2);
    let mut text = Vec::with_capacity(alloc, size.saturating_add(ends))?;
    for (i, pair) in pairs.iter().enumerate() {
        if i != 0 {
            text.push(b'&')?;
        }
        push_sides(&mut text, pair)?;
    }
    Ok(text)
}

fn push_sides(text: &mut Vec<u8>, pair: &Sides<'_>) -> Result<(), AllocError>
    ensures { OnOk result
        (text.new.items ≡ text.old.items ++ parameter_text (codes "=") (shown_pair pair.now)) }
{
    let (key, value) = *pair;
    text.extend_from_slice(key)?;
    if value.is_empty() {
        return Ok(());
    }
    text.push(b'=')?;
    text.extend_from_slice(value)
}
