//! The query of a canonical request.
ghost use Rattle.std.specs.Prelude.{◌≡◌, ◌+◌, ◌++◌, [], IfOk, OnOk, map, length, string_bytes};
ghost use Rattle.std.specs.List.{before_first, after_first, position, position_or_len};
ghost use Rattle.sign_request.specs.Query.{query_pieces, is_equals_sign};
ghost use Rattle.sigv4_canonical.specs.Encoding.{encoded_anew};
ghost use Rattle.sigv4_canonical.specs.CanonicalTarget.{canonical_query, encoded_pair};
ghost use Rattle.sigv4_canonical.specs.EncodedPairs.{sides_text, side_lengths};

use crate::encoded_pairs::{join_pairs, pairs_of};
use crate::encoding::push_encoded_anew;
use sign_base::NoMemory;
use std::alloc::{AllocError, Global};

/// The pairs of a query, sorted after their encoding, each with its `=`.
#[tactic(auto, unfolding(crate::specs::CanonicalTarget::canonical_query))]
pub(crate) fn canonical_query(alloc: Global, query: &[u8]) -> Result<Vec<u8>, NoMemory<()>>
    ensures { IfOk result (λ text. text.items ≡ canonical_query query.now) }
{
    let mut text = String::with_capacity(alloc, query.len())?;
    let lengths = push_sides(alloc, &mut text, query)?;
    let mut pairs = pairs_of(alloc, text.as_bytes(), lengths.as_slice())?;
    pairs.sort_unstable();
    Ok(join_pairs(alloc, text.len(), pairs.as_slice())?)
}

/// Writes the sides of the pairs, encoded, one after another, and answers how long each is.
fn push_sides(
    alloc: Global,
    text: &mut String,
    query: &[u8],
) -> Result<Vec<(usize, usize)>, AllocError>
    requires { string_bytes text.old ≡ [] }
    ensures text { OnOk result
        (string_bytes text.new ≡ sides_text (map encoded_pair (query_pieces query.now))) }
    ensures lengths { IfOk result
        (λ lengths. lengths.items ≡ side_lengths (map encoded_pair (query_pieces query.now))) }
{
    let mut lengths = Vec::new(alloc);
    for piece in query.split(|b| *b == b'&') {
        if !piece.is_empty() {
            let (key, value) = split_pair(piece);
            let key = push_side(alloc, text, key)?;
            let value = push_side(alloc, text, value)?;
            lengths.push((key, value))?;
        }
    }
    Ok(lengths)
}

/// Writes one side, encoded, and answers its length.
fn push_side(alloc: Global, text: &mut String, side: &[u8]) -> Result<usize, AllocError>
    ensures text { OnOk result (string_bytes text.new ≡ string_bytes text.old ++ encoded_anew side.now) }
    ensures length { IfOk result (λ n. n ≡ length (encoded_anew side.now)) }
{
    let before = text.len();
    push_encoded_anew(alloc, text, side)?;
    Ok(text.len() - before)
}

/// What stands before the first `=` of a piece, and what stands behind it.
fn split_pair(piece: &[u8]) -> (&[u8], &[u8])
    ensures key { result.0.now ≡ before_first is_equals_sign piece.now }
    ensures value { result.1.now ≡ after_first is_equals_sign piece.now }
{
    let (key, rest) = piece.split_at(key_len(piece));
    match rest {
        [] => (key, rest),
        [_, value @ ..] => (key, value),
    }
}

fn key_len(piece: &[u8]) -> usize
    ensures { result ≡ position_or_len is_equals_sign piece.now }
{
    match first_equals_sign(piece) {
        Some(place) => place,
        None => piece.len(),
    }
}

fn first_equals_sign(piece: &[u8]) -> Option<usize>
    ensures { result ≡ position is_equals_sign piece.now }
{
    piece.iter().position(|b| *b == b'=')
}
