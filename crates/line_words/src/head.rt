//! Request heads, read from the words that end a line.
ghost use Rattle.std.specs.Prelude.{◌≡◌, ◌<◌, ◌∷◌, [], false, Some, None, length, MatchOption, MatchResult};
ghost use Rattle.std.specs.List.{list_all};
ghost use Rattle.line_words.specs.Bytes.{colon, is_visible};
ghost use Rattle.line_words.specs.Words.{words, is_target};
ghost use Rattle.line_words.specs.Escapes.{is_plain, value_of, with_first_byte, escaped_byte};
ghost use Rattle.line_words.specs.Classes.{begins_with};
ghost use Rattle.line_words.specs.Heads.{version_of, field_named, field_of, is_colon};
ghost use Rattle.line_words.specs.Steps.{first_word};
ghost use Rattle.line_words.specs.Heads.{visible_target, fields_in, head_in};
ghost use Rattle.line_words.specs.Readers.{words_after, Reads, Gives};

use crate::byte_class::{ByteClass, hex_digit, is_plain, prefix_len, split_prefix};
use crate::read_error::{NotUnderstood, ReadError};
use crate::word::{next_word, split_word, word_at, word_is};
use sign_base::{Field, Fields, Head, Octets, Version};
use std::alloc::Global;

/// The head that all of these words spell.
#[tactic(auto, unfolding(crate::specs::Heads::head_in))]
pub fn parse_head(alloc: Global, rest: &[u8]) -> Result<Head, ReadError>
    ensures { Gives (λ h. h) result (head_in (words_after rest.now)) }
{
    let (method, rest) = word_at(rest)?;
    parse_head_with(alloc, method, rest)
}

/// The head that all words of a line spell.
pub fn parse_head_line(alloc: Global, line: &[u8]) -> Result<Head, ReadError>
    ensures { Gives (λ h. h) result (head_in (words line.now)) }
{
    let (method, rest) = split_word(line);
    parse_head_with(alloc, method, rest)
}

/// The head that a first word and those after it spell. Words that need no memory are read first,
/// while there is nothing to drop.
#[tactic(auto, unfolding(crate::specs::Heads::head_in))]
fn parse_head_with(alloc: Global, method: &[u8], rest: &[u8]) -> Result<Head, ReadError>
    ensures { Gives (λ h. h) result (head_in (method.now ∷ words_after rest.now)) }
{
    let (uri, rest) = word_at(rest)?;
    let (word, rest) = word_at(rest)?;
    let version = parse_version(word)?;
    let method = parse_target(alloc, method)?;
    let uri = parse_target(alloc, uri)?;
    let headers = parse_fields(alloc, rest)?;
    Ok(Head {
        method,
        uri,
        version,
        headers,
    })
}

fn parse_target(alloc: Global, word: &[u8]) -> Result<Octets, ReadError>
    ensures { Gives (λ o. o) result (visible_target word.now) }
{
    if !is_target(word) {
        return Err(ReadError::NotUnderstood);
    }
    Ok(Octets::from_slice(alloc, word)?)
}

/// Whether a word is one or more visible bytes.
#[tactic(auto, using(crate::proofs::HeadWords::target_if))]
pub fn is_target(word: &[u8]) -> bool
    ensures { result ≡ is_target word.now }
{
    word.len() > 0 && all_visible(word)
}

fn all_visible(word: &[u8]) -> bool
    ensures { result ≡ list_all is_visible word.now }
{
    prefix_len(ByteClass::Visible, word) == word.len()
}

fn parse_version(word: &[u8]) -> Result<Version, NotUnderstood>
    ensures { Reads (λ v. v) result (version_of word.now) }
{
    if word_is(word, b"0.9") {
        Ok(Version::V09)
    } else if word_is(word, b"1.0") {
        Ok(Version::V10)
    } else if word_is(word, b"1.1") {
        Ok(Version::V11)
    } else if word_is(word, b"2") {
        Ok(Version::V2)
    } else if word_is(word, b"3") {
        Ok(Version::V3)
    } else {
        Err(NotUnderstood)
    }
}

fn parse_fields(alloc: Global, rest: &[u8]) -> Result<Fields, ReadError>
    ensures { Gives (λ f. f) result (fields_in (words_after rest.now)) }
{
    let mut fields = Fields::new(alloc);
    let mut rest = rest;
    while let Some((word, after)) = next_word(rest) {
        fields.push(parse_field(alloc, word)?)?;
        rest = after;
    }
    Ok(fields)
}

fn parse_field(alloc: Global, word: &[u8]) -> Result<Field, ReadError>
    ensures { Gives (λ f. f) result (field_of word.now) }
{
    let (name, rest) = name_and_value(word)?;
    Ok(Field {
        name: Octets::from_slice(alloc, name)?,
        value: parse_value(alloc, rest)?,
    })
}

/// The name of a header, and the word of its value.
#[tactic(auto, using(crate::proofs::HeadNames::name_found, crate::proofs::HeadNames::no_colon_found, crate::proofs::HeadNames::no_name_found))]
fn name_and_value(word: &[u8]) -> Result<(&[u8], &[u8]), NotUnderstood>
    ensures { MatchResult result
        (λ x. field_of word.now ≡ field_named x.0.now (value_of x.1.now))
        (λ e. field_of word.now ≡ None) }
{
    let (name, rest) = split_prefix(ByteClass::Name, word);
    let Some(value) = after_colon(rest) else {
        return Err(NotUnderstood);
    };
    if name.is_empty() {
        return Err(NotUnderstood);
    }
    Ok((name, value))
}

/// What stands after a colon that begins these bytes.
#[inline(always)]
fn after_colon(rest: &[u8]) -> Option<&[u8]>
    ensures { MatchOption result (begins_with is_colon rest.now ≡ false)
        (λ value. rest.now ≡ colon ∷ value.now) }
{
    match rest {
        [b':', value @ ..] => Some(value),
        _ => None,
    }
}

/// The value of a header that a word spells. A word with no escape is copied at once.
#[tactic(auto, using(crate::proofs::HeadWords::value_of_plain_word))]
pub fn parse_value(alloc: Global, word: &[u8]) -> Result<Octets, ReadError>
    ensures { Gives (λ v. v) result (value_of word.now) }
{
    if all_plain(word) {
        return Ok(Octets::from_slice(alloc, word)?);
    }
    unescape(alloc, word)
}

fn all_plain(word: &[u8]) -> bool
    ensures { result ≡ list_all is_plain word.now }
{
    prefix_len(ByteClass::Value, word) == word.len()
}

/// A value is no longer than its word, so its room is taken once.
fn unescape(alloc: Global, word: &[u8]) -> Result<Octets, ReadError>
    ensures { Gives (λ v. v) result (value_of word.now) }
{
    let mut value = Vec::with_capacity(alloc, word.len())?;
    let mut rest = word;
    while let Some((b, after)) = next_byte(rest)? {
        value.push(b)?;
        let (plain, after) = split_prefix(ByteClass::Value, after);
        value.extend_from_slice(plain)?;
        rest = after;
    }
    Ok(Octets::from_vec(value))
}

/// The next byte of a value, and what stands after it.
fn next_byte(rest: &[u8]) -> Result<Option<(u8, &[u8])>, NotUnderstood>
    ensures { MatchResult result
        (λ o. MatchOption o (value_of rest.now ≡ Some [])
        (λ x. (value_of rest.now ≡ with_first_byte x.0 (value_of x.1.now))
        × (length x.1.now < length rest.now)))
        (λ e. value_of rest.now ≡ None) }
{
    match rest {
        [] => Ok(None),
        [b'%', high, low, after @ ..] => match escaped_byte(*high, *low) {
            Some(b) => Ok(Some((b, after))),
            None => Err(NotUnderstood),
        },
        [b, after @ ..] if is_plain(*b) => Ok(Some((*b, after))),
        _ => Err(NotUnderstood),
    }
}

/// The byte that two digits after `%` represent.
fn escaped_byte(high: u8, low: u8) -> Option<u8>
    ensures { result ≡ escaped_byte high low }
{
    let b = 16 * hex_digit(b'A', high)? + hex_digit(b'A', low)?;
    if is_plain(b) { None } else { Some(b) }
}
