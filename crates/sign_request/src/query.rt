//! Reading a query into pairs, for a view and for the test that it still fits its head.
ghost use Rattle.std.specs.Prelude.{◌≡◌, ◌↔◌, IfOk, IsTrue};
ghost use Rattle.std.specs.List.{before_first, after_first};
ghost use Rattle.sign_request.specs.Query.{is_equals_sign, read_pair, query_pairs, text_pair, text_pairs};

use crate::decode::decode;
use std::alloc::{AllocError, Global};

/// The pairs of a query, in order: cut at each `&`, without empty pieces.
pub(crate) fn read_query(alloc: Global, query: &str) -> Result<Vec<(String, String)>, AllocError>
    ensures { IfOk result (λ pairs. text_pairs pairs.items ≡ query_pairs query.now) }
{
    let mut pairs = Vec::new(alloc);
    for piece in query.split('&') {
        if !piece.is_empty() {
            pairs.push(read_pair(alloc, piece)?)?;
        }
    }
    Ok(pairs)
}

/// Whether two lists have the same pairs in the same order.
pub(crate) fn same_pairs(pairs: &Vec<(String, String)>, others: &Vec<(String, String)>) -> bool
    ensures { IsTrue result ↔ (text_pairs pairs.now.items ≡ text_pairs others.now.items) }
{
    *pairs == *others
}

/// A piece cut at its first `=`, each side decoded once.
fn read_pair(alloc: Global, piece: &str) -> Result<(String, String), AllocError>
    ensures { IfOk result (λ pair. text_pair pair ≡ read_pair piece.now) }
{
    let (key, value) = key_and_value(piece);
    let key = decode(alloc, key)?.into_owned(alloc)?;
    let value = decode(alloc, value)?.into_owned(alloc)?;
    Ok((key, value))
}

fn key_and_value(piece: &str) -> (&str, &str)
    ensures key { result.0.now ≡ before_first is_equals_sign piece.now }
    ensures value { result.1.now ≡ after_first is_equals_sign piece.now }
{
    piece.split_once('=').unwrap_or((piece, ""))
}
