//! The answer to a line of `view`, added at the end of a text. Where an allocation fails, a part of
//! it may stand there.
ghost use Rattle.std.specs.Prelude.{◌≡◌, ◌<◌, ◌≤◌, ◌^◌, ◌++◌, ◌∷◌, [], OnOk, codes, decimal, map, flat_map};
ghost use Rattle.std.specs.Prelude.{length, unwrap_or};
ghost use Rattle.http_uri.specs.Grammar.{query_of};
ghost use Rattle.http_uri.specs.Uri.{uri_data};
ghost use Rattle.sign_request.specs.CanonicalText.{canonical_text, parameter_text};
ghost use Rattle.sign_request.specs.Headers.{sorted_names};
ghost use Rattle.sign_request.specs.PlainHead.{header_map};
ghost use Rattle.sign_request.specs.PlainTarget.{plain_target};
ghost use Rattle.sign_request.specs.Query.{query_length};
ghost use Rattle.line_words.specs.Words.{with_newline, spaced_words, line_of};
ghost use Rattle.signctl_by_line.specs.LentPairs.{lent_pair, lent_pairs};
ghost use Rattle.signctl_by_line.specs.ViewAnswers.{named_line, target_lines, pair_word, pair_line};
ghost use Rattle.signctl_by_line.specs.ViewAnswers.{query_words, view_lines, view_answer};
ghost use Rattle.signctl_by_line.specs.ViewTarget.{viewed_at, summary_of};

use crate::view_names::{distinct_names, lowercase_text};
use crate::view_pairs::{LentPair, pairs_of, query_size};
use crate::view_query::query_text;
use crate::view_target::view_target;
use http::uri::Uri;
use line_words::escape::{Escaping, push_escaped};
use line_words::text::{push, push_number, push_word};
use sign_base::{Fields, Head, NoMemory};
use sign_request::{HeaderSeeds, ViewRefusal};
use sigv4_core::{authority_of, path_of};
use std::alloc::Global;

/// Adds the answer to a head: the lines of its view, of which no part is copied that reads as it stands.
pub(crate) fn push_answer(
    alloc: Global,
    keys: HeaderSeeds,
    head: &Head,
    text: &mut Vec<u8>,
) -> Result<(), NoMemory<()>>
    ensures { OnOk result (text.new.items ≡ text.old.items ++ view_answer head.now) }
{
    match view_target(alloc, head, keys) {
        Ok(uri) => push_view(alloc, head, &uri, text),
        Err(ViewRefusal::Head) => push_line(text, b"refused head"),
        Err(ViewRefusal::Authority) => push_line(text, b"refused authority"),
        Err(ViewRefusal::OutOfMemory) => Err(NoMemory { back: () }),
    }
}

fn push_line(text: &mut Vec<u8>, line: &[u8]) -> Result<(), NoMemory<()>>
    ensures { OnOk result (text.new.items ≡ text.old.items ++ with_newline line.now) }
{
    push(text, line)?;
    push(text, b"\n")
}

/// Adds the lines of the view of a head with this target.
#[tactic(auto, using(crate::proofs::Views::pairs_fit))]
fn push_view(alloc: Global, head: &Head, uri: &Uri, text: &mut Vec<u8>) -> Result<(), NoMemory<()>>
    ensures { OnOk result (text.new.items ≡ text.old.items
        ++ flat_map with_newline (view_lines (viewed_at head.now (plain_target uri.now)))) }
{
    push_target(text, head, uri)?;
    let pairs = pairs_of(alloc, query_of(uri))?;
    push_pairs(text, pairs.as_slice())?;
    push_summary(alloc, &head.headers, pairs.as_slice(), text)
}

fn push_target(text: &mut Vec<u8>, head: &Head, uri: &Uri) -> Result<(), NoMemory<()>>
    ensures { OnOk result (text.new.items ≡ text.old.items
        ++ flat_map with_newline (target_lines (viewed_at head.now (plain_target uri.now)))) }
{
    push_part(text, b"method", head.method.as_slice())?;
    push_part(
        text,
        b"scheme",
        uri.scheme_str().unwrap_or("http").as_bytes(),
    )?;
    push_part(text, b"authority", authority_of(uri).as_bytes())?;
    push_part(text, b"path", path_of(uri).as_bytes())
}

/// The query as it is spelled, or the empty text. It is no longer than a target may be.
#[tactic(auto, using(crate::proofs::Views::query_is_short))]
fn query_of(uri: &Uri) -> &str
    ensures value { result.now ≡ unwrap_or (query_of (uri_data uri.now)) [] }
    ensures short { length result.now ≤ 65534 }
{
    uri.query().unwrap_or("")
}

/// Adds the line of a part that has this name.
fn push_part(text: &mut Vec<u8>, name: &[u8], part: &[u8]) -> Result<(), NoMemory<()>>
    ensures { OnOk result (text.new.items ≡ text.old.items ++ with_newline (named_line name.now part.now)) }
{
    push(text, name)?;
    push_word(text, part)?;
    push(text, b"\n")
}

fn push_pairs(text: &mut Vec<u8>, pairs: &[LentPair<'_>]) -> Result<(), NoMemory<()>>
    ensures { OnOk result
        (text.new.items ≡ text.old.items ++ flat_map with_newline (map pair_line (lent_pairs pairs.now))) }
{
    for pair in pairs {
        push_pair(text, pair)?;
    }
    Ok(())
}

fn push_pair(text: &mut Vec<u8>, pair: &LentPair<'_>) -> Result<(), NoMemory<()>>
    ensures { OnOk result (text.new.items ≡ text.old.items ++ with_newline (pair_line (lent_pair pair.now))) }
{
    let (key, value) = pair;
    push(text, b"pair ")?;
    push_escaped(text, Escaping::Pair, key.as_str().as_bytes())?;
    push(text, b"=")?;
    push_escaped(text, Escaping::Pair, value.as_str().as_bytes())?;
    push(text, b"\n")
}

/// Adds the size of the query, the names and the query.
fn push_summary(
    alloc: Global,
    fields: &Fields,
    pairs: &[LentPair<'_>],
    text: &mut Vec<u8>,
) -> Result<(), NoMemory<()>>
    requires { query_length (lent_pairs pairs.now) < 2 ^ 64 }
    ensures { OnOk result (text.new.items ≡ text.old.items ++ flat_map with_newline
        (summary_of (lent_pairs pairs.now) (sorted_names (header_map fields.now)))) }
{
    let size = query_size(pairs);
    push_size(text, size)?;
    push_names(alloc, text, fields)?;
    push_query(alloc, text, size, pairs)
}

fn push_size(text: &mut Vec<u8>, size: usize) -> Result<(), NoMemory<()>>
    ensures { OnOk result
        (text.new.items ≡ text.old.items ++ with_newline (named_line (codes "size") (decimal size))) }
{
    push(text, b"size")?;
    push_number(text, size as u64)?;
    push(text, b"\n")
}

fn push_names(alloc: Global, text: &mut Vec<u8>, fields: &Fields) -> Result<(), NoMemory<()>>
    ensures { OnOk result (text.new.items ≡ text.old.items
        ++ with_newline (line_of (codes "names" ∷ sorted_names (header_map fields.now)))) }
{
    let names = lowercase_text(alloc, fields)?;
    let names = distinct_names(alloc, fields, names.as_slice())?;
    push(text, b"names")?;
    push_words(text, names.as_slice())?;
    push(text, b"\n")
}

/// Adds each word after one space.
fn push_words(text: &mut Vec<u8>, words: &[&[u8]]) -> Result<(), NoMemory<()>>
    ensures { OnOk result
        (text.new.items ≡ text.old.items ++ spaced_words (map (λ word. word.now) words.now)) }
{
    for word in words {
        push_word(text, word)?;
    }
    Ok(())
}

fn push_query(
    alloc: Global,
    text: &mut Vec<u8>,
    size: usize,
    pairs: &[LentPair<'_>],
) -> Result<(), NoMemory<()>>
    ensures { OnOk result (text.new.items ≡ text.old.items ++ with_newline (line_of (codes "query"
        ∷ query_words (canonical_text (parameter_text (codes "=")) (codes "&") (lent_pairs pairs.now))))) }
{
    let query = query_text(alloc, size, pairs)?;
    push(text, b"query")?;
    push_query_words(text, query.as_slice())?;
    push(text, b"\n")
}

fn push_query_words(text: &mut Vec<u8>, query: &[u8]) -> Result<(), NoMemory<()>>
    ensures { OnOk result (text.new.items ≡ text.old.items ++ spaced_words (query_words query.now)) }
{
    if query.is_empty() {
        return Ok(());
    }
    push(text, b" ")?;
    push_escaped(text, Escaping::Value, query)
}
