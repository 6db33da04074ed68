//! Bytes as one word: in hexadecimal, or as they are. No bytes are the word `-`.
ghost use Rattle.std.specs.Prelude.{◌≡◌, ◌*◌, ◌≤◌, ◌∷◌, ℕ, length, IsTrue, Some, Ok};
ghost use Rattle.std.specs.List.{list_all};
ghost use Rattle.hex.specs.Hex.{decode_of, hex_digit_value, pair_value};
ghost use Rattle.line_words.specs.Readers.{Gives};
ghost use Rattle.signctl_by_line.specs.BytesWords.{is_lower_hex, bytes_of, text_of};

use line_words::ReadError;
use line_words::head::is_target;
use sign_base::Octets;
use std::alloc::Global;

/// The bytes that a word spells in lower-case hexadecimal. Their room is taken once.
#[tactic(auto, unfolding(crate::specs::BytesWords::bytes_of))]
pub(crate) fn parse_bytes(alloc: Global, word: &[u8]) -> Result<Octets, ReadError>
    ensures { Gives (λ o. o) result (bytes_of word.now) }
{
    if word == b"-".as_slice() {
        return Ok(Octets::from_vec(Vec::new(alloc)));
    }
    if word.is_empty() || word.len() % 2 != 0 {
        return Err(ReadError::NotUnderstood);
    }
    let mut bytes = vec![in alloc; 0u8; word.len() / 2]?;
    if !decode(word, bytes.as_mut_slice()) {
        return Err(ReadError::NotUnderstood);
    }
    Ok(Octets::from_vec(bytes))
}

/// Writes the byte of each two digits, and says whether all of them are lower-case digits. The loop
/// has no branch that the digits decide, so it takes many of them at a time.
fn decode(digits: &[u8], bytes: &mut [u8]) -> bool
    requires { length digits.now ≡ 2 * length bytes.old }
    ensures digits { result ≡ list_all is_lower_hex digits.now }
    ensures bytes { IsTrue result → decode_of digits.now ≡ Ok bytes.new }
{
    let mut all = true;
    let mut rest = digits;
    for b in bytes.iter_mut() {
        let (high, low, after) = split_pair(rest);
        all = all & is_lower_hex(high) & is_lower_hex(low);
        *b = byte_of(high, low);
        rest = after;
    }
    all
}

/// The first two digits, and those after them.
#[inline(always)]
fn split_pair(digits: &[u8]) -> (u8, u8, &[u8])
    requires { 2 ≤ length digits.now }
    ensures { digits.now ≡ result.0 ∷ result.1 ∷ result.2.now }
{
    match digits {
        [high, low, after @ ..] => (*high, *low, after),
        _ => unreachable!(),
    }
}

/// The byte of two lower-case digits.
#[inline(always)]
fn byte_of(high: u8, low: u8) -> u8
    ensures { (place : ℕ) → IsTrue (is_lower_hex high) → IsTrue (is_lower_hex low)
        → pair_value high low place ≡ Ok result }
{
    nibble(high).wrapping_mul(16).wrapping_add(nibble(low))
}

/// The number of a lower-case digit.
#[inline(always)]
fn nibble(b: u8) -> u8
    ensures { IsTrue (is_lower_hex b) → hex_digit_value b ≡ Some result }
{
    let zero = if b < b'a' { b'0' } else { b'a' - 10 };
    b.wrapping_sub(zero)
}

/// The text of visible bytes that a word spells.
#[tactic(auto, unfolding(crate::specs::BytesWords::text_of))]
pub(crate) fn parse_text(alloc: Global, word: &[u8]) -> Result<Octets, ReadError>
    ensures { Gives (λ o. o) result (text_of word.now) }
{
    if word == b"-".as_slice() {
        return Ok(Octets::from_vec(Vec::new(alloc)));
    }
    if !is_target(word) {
        return Err(ReadError::NotUnderstood);
    }
    Ok(Octets::from_slice(alloc, word)?)
}

#[inline(always)]
fn is_lower_hex(b: u8) -> bool
    ensures { result ≡ is_lower_hex b }
{
    matches!(b, b'0'..=b'9' | b'a'..=b'f')
}
