//! The pairs of a query after their encoding, cut out of one text in which their sides stand one after
//! another.
ghost use Rattle.std.specs.Prelude.{◌≡◌, ◌≤◌, ◌++◌, IfOk, OnOk, codes, drop, length, map, take};
ghost use Rattle.sign_request.specs.CanonicalText.{joined_texts, header_text};
ghost use Rattle.sigv4_canonical.specs.EncodedPairs.{shown_pair, shown_pairs, cut_pairs, IsCut};

use std::alloc::{AllocError, Global};

/// A key and its value. They are in order by key, and then by value.
pub(crate) type EncodedPair<'a> = (&'a [u8], &'a [u8]);

/// The pairs whose sides stand in a text, by the lengths of each pair's two sides.
pub(crate) fn pairs_of<'a>(
    alloc: Global,
    text: &'a [u8],
    lengths: &[(usize, usize)],
) -> Result<Vec<EncodedPair<'a>>, AllocError>
    requires { IsCut text.now lengths.now }
    ensures { IfOk result (λ pairs. shown_pairs pairs.items ≡ cut_pairs text.now lengths.now) }
{
    let mut pairs = Vec::with_capacity(alloc, lengths.len())?;
    let mut rest = text;
    for sides in lengths {
        let (pair, more) = cut_pair(rest, *sides);
        pairs.push(pair)?;
        rest = more;
    }
    Ok(pairs)
}

/// The pair at the front of a text, by the lengths of its sides, and what stands after it.
fn cut_pair<'a>(text: &'a [u8], sides: (usize, usize)) -> (EncodedPair<'a>, &'a [u8])
    requires key { sides.0 ≤ length text.now }
    requires value { sides.1 ≤ length (drop sides.0 text.now) }
    ensures pair { shown_pair result.0 ≡ (take sides.0 text.now, take sides.1 (drop sides.0 text.now)) }
    ensures rest { result.1.now ≡ drop sides.1 (drop sides.0 text.now) }
{
    let (key, more) = text.split_at(sides.0);
    let (value, rest) = more.split_at(sides.1);
    ((key, value), rest)
}

/// The pairs as they stand, each with its `=`, joined by `&`. Their sides have about so many bytes.
pub(crate) fn join_pairs(
    alloc: Global,
    len: usize,
    pairs: &[EncodedPair<'_>],
) -> Result<Vec<u8>, AllocError>
    ensures { IfOk result (λ text. text.items
        ≡ joined_texts (codes "&") (map (header_text (codes "=")) (shown_pairs pairs.now))) }
{
    let ends = pairs.len().saturating_mul(2);
    let mut text = Vec::with_capacity(alloc, len.saturating_add(ends))?;
    for (i, pair) in pairs.iter().enumerate() {
        if i != 0 {
            text.push(b'&')?;
        }
        push_pair(&mut text, pair)?;
    }
    Ok(text)
}

fn push_pair(text: &mut Vec<u8>, pair: &EncodedPair<'_>) -> Result<(), AllocError>
    ensures { OnOk result (text.new.items ≡ text.old.items ++ header_text (codes "=") (shown_pair pair.now)) }
{
    let (key, value) = *pair;
    text.extend_from_slice(key)?;
    text.push(b'=')?;
    text.extend_from_slice(value)
}
