//! Reading a line of `hmac`: one function for each form, by the arguments of the call that it names.
ghost use Rattle.line_words.specs.Readers.{words_after, Reads, Gives, NeedsMemory};
ghost use Rattle.signctl_by_line.specs.HmacReading.{NamesCall, call_named, unkeyed_form, keyed_form};
ghost use Rattle.signctl_by_line.specs.HmacReading.{decode_form, hmac_item_of};

use crate::bytes_word::{parse_bytes, parse_text};
use crate::{HashCall, HmacItem, KeyedCall, UnkeyedCall};
use line_words::word::{at_end_of_line, split_word, word_at};
use line_words::{NotUnderstood, ReadError};
use std::alloc::Global;

/// The item that a line without its newline spells.
///
/// Nothing of the line is copied but what the item keeps, so only a line whose first word names a call can
/// run out of memory.
#[tactic(auto, unfolding(crate::specs::HmacReading::hmac_words_say))]
pub fn read_hmac_line(alloc: Global, line: &[u8]) -> Result<HmacItem, ReadError>
    ensures item { Gives (λ i. i) result (hmac_item_of line.now) }
    ensures memory { NeedsMemory result (NamesCall line.now) }
{
    let (name, rest) = split_word(line);
    match parse_call(name)? {
        HashCall::Unkeyed(call) => parse_unkeyed(alloc, call, rest),
        HashCall::Keyed(call) => parse_keyed(alloc, call, rest),
        HashCall::Base64Decode => parse_decode(alloc, rest),
    }
}

/// The call that a word names.
#[tactic(auto, unfolding(crate::specs::HmacReading::call_named))]
fn parse_call(name: &[u8]) -> Result<HashCall, NotUnderstood>
    ensures { Reads (λ c. c) result (call_named name.now) }
{
    if name == b"base64_encode".as_slice() {
        Ok(HashCall::Unkeyed(UnkeyedCall::Base64Encode))
    } else if name == b"base64_decode".as_slice() {
        Ok(HashCall::Base64Decode)
    } else if name == b"hex_sha1".as_slice() {
        Ok(HashCall::Unkeyed(UnkeyedCall::HexSha1))
    } else if name == b"hex_sha256".as_slice() {
        Ok(HashCall::Unkeyed(UnkeyedCall::HexSha256))
    } else if name == b"hmac_sha256".as_slice() {
        Ok(HashCall::Keyed(KeyedCall::HmacSha256))
    } else if name == b"hex_hmac_sha1".as_slice() {
        Ok(HashCall::Keyed(KeyedCall::HexHmacSha1))
    } else if name == b"hex_hmac_sha256".as_slice() {
        Ok(HashCall::Keyed(KeyedCall::HexHmacSha256))
    } else if name == b"base64_hmac_sha1".as_slice() {
        Ok(HashCall::Keyed(KeyedCall::Base64HmacSha1))
    } else if name == b"base64_hmac_sha256".as_slice() {
        Ok(HashCall::Keyed(KeyedCall::Base64HmacSha256))
    } else {
        Err(NotUnderstood)
    }
}

#[tactic(auto, unfolding(crate::specs::HmacReading::unkeyed_form))]
fn parse_unkeyed(alloc: Global, call: UnkeyedCall, rest: &[u8]) -> Result<HmacItem, ReadError>
    ensures { Gives (λ i. i) result (unkeyed_form call (words_after rest.now)) }
{
    let (word, rest) = word_at(rest)?;
    let content = parse_bytes(alloc, word)?;
    Ok(at_end_of_line(HmacItem::Unkeyed { call, content }, rest)?)
}

#[tactic(auto, unfolding(crate::specs::HmacReading::keyed_form))]
fn parse_keyed(alloc: Global, call: KeyedCall, rest: &[u8]) -> Result<HmacItem, ReadError>
    ensures { Gives (λ i. i) result (keyed_form call (words_after rest.now)) }
{
    let (word, rest) = word_at(rest)?;
    let key = parse_bytes(alloc, word)?;
    let (word, rest) = word_at(rest)?;
    let content = parse_bytes(alloc, word)?;
    Ok(at_end_of_line(HmacItem::Keyed { call, key, content }, rest)?)
}

#[tactic(auto, unfolding(crate::specs::HmacReading::decode_form))]
fn parse_decode(alloc: Global, rest: &[u8]) -> Result<HmacItem, ReadError>
    ensures { Gives (λ i. i) result (decode_form (words_after rest.now)) }
{
    let (word, rest) = word_at(rest)?;
    let content = parse_text(alloc, word)?;
    Ok(at_end_of_line(HmacItem::Base64Decode { content }, rest)?)
}
