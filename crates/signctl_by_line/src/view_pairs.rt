//! The pairs of a query, as a view shows them. A side with nothing to decode is lent.
ghost use Rattle.std.specs.Prelude.{◌≡◌, ◌<◌, ◌^◌, IfOk};
ghost use Rattle.std.specs.Cow.{cow_str_bytes};
ghost use Rattle.std.specs.List.{before_first, after_first};
ghost use Rattle.sign_request.specs.Query.{decoded_text, is_equals_sign, read_pair, query_pairs};
ghost use Rattle.sign_request.specs.Query.{query_length};
ghost use Rattle.signctl_by_line.specs.LentPairs.{lent_pair, lent_pairs};

use percent_encoding::percent_decode_str;
use std::alloc::{AllocError, Global};
use std::borrow::CowStr;

/// A key and its value, each decoded once.
pub(crate) type LentPair<'a> = (CowStr<'a, Global>, CowStr<'a, Global>);

/// The pairs of a query, in order: cut at each `&`, without empty pieces.
pub(crate) fn pairs_of<'a>(alloc: Global, query: &'a str) -> Result<Vec<LentPair<'a>>, AllocError>
    ensures { IfOk result (λ pairs. lent_pairs pairs.items ≡ query_pairs query.now) }
{
    let mut pairs = Vec::new(alloc);
    for piece in query.split('&') {
        if !piece.is_empty() {
            pairs.push(read_pair(alloc, piece)?)?;
        }
    }
    Ok(pairs)
}

/// A piece cut at its first `=`.
fn read_pair<'a>(alloc: Global, piece: &'a str) -> Result<LentPair<'a>, AllocError>
    ensures { IfOk result (λ pair. lent_pair pair ≡ read_pair piece.now) }
{
    let (key, value) = key_and_value(piece);
    let key = decode(alloc, key)?;
    let value = decode(alloc, value)?;
    Ok((key, value))
}

fn key_and_value(piece: &str) -> (&str, &str)
    ensures key { result.0.now ≡ before_first is_equals_sign piece.now }
    ensures value { result.1.now ≡ after_first is_equals_sign piece.now }
{
    piece.split_once('=').unwrap_or((piece, ""))
}

#[tactic(auto, unfolding(sign_request::specs::Query::decoded_text))]
fn decode<'a>(alloc: Global, side: &'a str) -> Result<CowStr<'a, Global>, AllocError>
    ensures { IfOk result (λ plain. cow_str_bytes plain ≡ decoded_text side.now) }
{
    percent_decode_str(side).decode_utf8_lossy(alloc)
}

/// How many bytes the sides have together.
pub(crate) fn query_size(pairs: &[LentPair<'_>]) -> usize
    requires { query_length (lent_pairs pairs.now) < 2 ^ 64 }
    ensures { result ≡ query_length (lent_pairs pairs.now) }
{
    let mut size = 0usize;
    for (key, value) in pairs {
        size += key.len() + value.len();
    }
    size
}
