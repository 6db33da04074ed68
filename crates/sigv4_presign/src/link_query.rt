//! A query in its pieces, each beside its decoded key, as both calls read it.
ghost use Rattle.std.specs.Prelude.{◌≡◌, ◌++◌, ◌∷◌, IfOk, OnOk, bytes_eq, if◌then◌else◌, option_copied};
ghost use Rattle.std.specs.Prelude.{option_map, string_bytes};
ghost use Rattle.sign_base.specs.Bytes.{ampersand};
ghost use Rattle.sign_request.specs.Query.{decoded_text, read_pair};
ghost use Rattle.sigv4_presign.specs.LinkPairs.{is_link_name};
ghost use Rattle.sigv4_presign.specs.LinkPieces.{keyed, keyed_piece, keyed_pieces, ArePiecesOf, texts_named};
ghost use Rattle.sigv4_presign.specs.LinkPieces.{only, value_in, unsigned_text, any_link_name};

use percent_encoding::percent_decode_str;
use std::alloc::{AllocError, Global};

/// The names of a link's pairs.
pub(crate) const ALGORITHM: &str = "X-Amz-Algorithm";

pub(crate) const CREDENTIAL: &str = "X-Amz-Credential";

pub(crate) const DATE: &str = "X-Amz-Date";

pub(crate) const EXPIRES: &str = "X-Amz-Expires";

pub(crate) const SIGNED_HEADERS: &str = "X-Amz-SignedHeaders";

pub(crate) const SIGNATURE: &str = "X-Amz-Signature";

/// What stands between two `&`, beside its key, which is decoded once.
#[derive(Drop)]
pub(crate) struct Piece<'a> {
    pub key: String,
    pub text: &'a str,
}

/// The pieces of a query, in order, without empty ones.
pub(crate) fn pieces_of(alloc: Global, query: &str) -> Result<Vec<Piece<'_>>, AllocError>
    ensures { IfOk result (λ pieces. ArePiecesOf query.now pieces.items) }
{
    let mut pieces = Vec::new(alloc);
    for text in query.split('&') {
        if !text.is_empty() {
            pieces.push(keyed_piece(alloc, text)?)?;
        }
    }
    Ok(pieces)
}

fn keyed_piece(alloc: Global, text: &str) -> Result<Piece<'_>, AllocError>
    ensures { IfOk result (λ piece. keyed_piece piece ≡ keyed text.now) }
{
    let (key, _) = text.split_once('=').unwrap_or((text, ""));
    Ok(Piece {
        key: decoded(alloc, key)?,
        text,
    })
}

/// The value of a piece, decoded once.
fn read_value(alloc: Global, text: &str) -> Result<String, AllocError>
    ensures { IfOk result (λ value. string_bytes value ≡ (read_pair text.now).1) }
{
    let (_, value) = text.split_once('=').unwrap_or((text, ""));
    decoded(alloc, value)
}

#[tactic(auto, unfolding(sign_request::specs::Query::decoded_text))]
fn decoded(alloc: Global, side: &str) -> Result<String, AllocError>
    ensures { IfOk result (λ text. string_bytes text ≡ decoded_text side.now) }
{
    percent_decode_str(side)
        .decode_utf8_lossy(alloc)?
        .into_owned(alloc)
}

/// Whether one of the keys is the name of a link's pair.
pub(crate) fn has_link_name(pieces: &[Piece<'_>]) -> bool
    ensures { result ≡ any_link_name pieces.now }
{
    pieces.iter().any(|piece| is_link_name(piece.key.as_str()))
}

fn is_link_name(key: &str) -> bool
    ensures { result ≡ is_link_name key.now }
{
    key == ALGORITHM
        || key == CREDENTIAL
        || key == DATE
        || key == EXPIRES
        || key == SIGNED_HEADERS
        || key == SIGNATURE
}

/// The value of the one pair of this name; None where there is none, or more than one.
pub(crate) fn only_value(
    alloc: Global,
    pieces: &[Piece<'_>],
    name: &str,
) -> Result<Option<String>, AllocError>
    ensures { IfOk result (λ found. option_map string_bytes found
        ≡ value_in name.now (keyed_pieces pieces.now)) }
{
    match only_piece(pieces, name) {
        Some(text) => Ok(Some(read_value(alloc, text)?)),
        None => Ok(None),
    }
}

/// The one piece with this key.
fn only_piece<'a>(pieces: &[Piece<'a>], name: &str) -> Option<&'a str>
    ensures { option_copied result
        ≡ only (texts_named name.now (keyed_pieces pieces.now)) }
{
    let mut found = None;
    for piece in pieces {
        if has_key(piece, name) {
            if found.is_some() {
                return None;
            }
            found = Some(piece.text);
        }
    }
    found
}

/// The query without the pieces of its signature, as it stands.
pub(crate) fn unsigned_query(alloc: Global, pieces: &[Piece<'_>]) -> Result<Vec<u8>, AllocError>
    ensures { IfOk result (λ text. text.items ≡ unsigned_text (keyed_pieces pieces.now)) }
{
    let mut text = Vec::new(alloc);
    let mut first = true;
    for piece in pieces {
        if !has_key(piece, SIGNATURE) {
            push_joined(&mut text, first, piece.text)?;
            first = false;
        }
    }
    Ok(text)
}

/// Appends a piece, and `&` before it unless it is the first.
fn push_joined(text: &mut Vec<u8>, first: bool, piece: &str) -> Result<(), AllocError>
    ensures { OnOk result
        (text.new.items ≡ text.old.items ++ (if first then piece.now else ampersand ∷ piece.now)) }
{
    if !first {
        text.push(b'&')?;
    }
    text.extend_from_slice(piece.as_bytes())?;
    Ok(())
}

fn has_key(piece: &Piece<'_>, name: &str) -> bool
    ensures { result ≡ bytes_eq (string_bytes piece.now.key) name.now }
{
    piece.key.as_str() == name
}
