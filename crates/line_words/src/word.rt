//! The words of a line, from left to right.
//!
//! What stands after a word is empty, or begins with the space before the next word.
ghost use Rattle.std.specs.Prelude.{◌≡◌, ◌≤◌, ◌<◌, [], ◌∷◌, length, ℕ, ◌^◌, ◌+◌, ◌*◌, ◌≢◌, IfOk, None};
ghost use Rattle.std.specs.Prelude.{MatchOption, MatchResult, IfSome, decimal};
ghost use Rattle.std.specs.List.{position_or_len};
ghost use Rattle.std.specs.Char.{digit_value};
ghost use Rattle.std.specs.Str.{bytes_eq};
ghost use Rattle.std.specs.Str.Parse.{AllDigits, digits_value};
ghost use Rattle.line_words.specs.Words.{is_silent, is_space, words, begins_a_number, number_of};
ghost use Rattle.line_words.specs.Words.{greatest_u32};
ghost use Rattle.line_words.specs.Steps.{first_word, at_end_of_line, number_at};
ghost use Rattle.line_words.specs.Readers.{words_after, Reads};

use crate::byte_class::{ByteClass, is_digit, prefix_len};
use crate::read_error::NotUnderstood;

/// Whether a word is this text.
#[inline(always)]
pub fn word_is(word: &[u8], text: &[u8]) -> bool
    ensures { result ≡ bytes_eq word.now text.now }
{
    word == text
}

/// Whether a line says nothing: it is empty, or begins with `#`.
#[inline(always)]
pub fn is_silent(line: &[u8]) -> bool
    ensures { result ≡ is_silent line.now }
{
    match line {
        [] => true,
        [b, ..] => *b == b'#',
    }
}

/// The text before its first space, and the rest from that space on.
#[inline(always)]
#[tactic(auto, using(crate::proofs::WordList::words_split))]
pub fn split_word(text: &[u8]) -> (&[u8], &[u8])
    ensures words { words text.now ≡ result.0.now ∷ words_after result.1.now }
    ensures shorter { length result.1.now ≤ length text.now }
{
    text.split_at(word_len(text))
}

fn word_len(text: &[u8]) -> usize
    ensures { result ≡ position_or_len is_space text.now }
{
    prefix_len(ByteClass::Word, text)
}

/// The next word, and what stands after it.
#[inline(always)]
pub fn next_word(rest: &[u8]) -> Option<(&[u8], &[u8])>
    ensures words { MatchOption result (words_after rest.now ≡ [])
        (λ w. words_after rest.now ≡ w.0.now ∷ words_after w.1.now) }
    ensures shorter { IfSome result (λ w. length w.1.now < length rest.now) }
{
    match rest {
        [] => None,
        [_, text @ ..] => Some(split_word(text)),
    }
}

/// The next word, where there has to be one.
#[inline(always)]
pub fn word_at(rest: &[u8]) -> Result<(&[u8], &[u8]), NotUnderstood>
    ensures { MatchResult result (λ w. words_after rest.now ≡ w.0.now ∷ words_after w.1.now)
        (λ e. words_after rest.now ≡ []) }
{
    match next_word(rest) {
        Some(found) => Ok(found),
        None => Err(NotUnderstood),
    }
}

/// The number up to a limit that a word spells.
#[inline(always)]
pub fn parse_number(limit: u64, word: &[u8]) -> Result<u64, NotUnderstood>
    ensures value { Reads (λ n. n) result (number_of limit word.now) }
    ensures fits { IfOk result (λ n. n ≤ limit) }
{
    if !begins_a_number(word) {
        return Err(NotUnderstood);
    }
    match parse_digits(word) {
        Some(n) if n <= limit => Ok(n),
        _ => Err(NotUnderstood),
    }
}

/// Whether a word has a byte, and no zero before another one.
#[inline(always)]
fn begins_a_number(word: &[u8]) -> bool
    ensures { result ≡ begins_a_number word.now }
{
    match word {
        [] => false,
        [_] => true,
        [b, ..] => *b != b'0',
    }
}

/// The number of a word of digits, where it fits 64 bits. They may have zeros in front.
#[inline(always)]
fn parse_digits(word: &[u8]) -> Option<u64>
    ensures some { IfSome result (λ n. AllDigits 10 word.now × (digits_value 10 word.now ≡ n)) }
    ensures none { result ≡ None → (m : ℕ) → m < 2 ^ 64 → word.now ≢ decimal m }
{
    let mut n: u64 = 0;
    let mut rest = word;
    while let [b, after @ ..] = rest {
        n = with_digit(n, *b)?;
        rest = after;
    }
    Some(n)
}

/// A number with one digit more, where it fits 64 bits.
#[inline(always)]
fn with_digit(n: u64, b: u8) -> Option<u64>
    ensures some { IfSome result (λ m. (digit_value b < 10) × (n * 10 + digit_value b ≡ m)) }
    ensures none { result ≡ None → digit_value b < 10 → 2 ^ 64 ≤ n * 10 + digit_value b }
{
    if !is_digit(b) {
        return None;
    }
    n.checked_mul(10)?.checked_add(u64::from(b - b'0'))
}

/// The number in the next word.
#[inline(always)]
#[tactic(auto, unfolding(crate::specs::Steps::number_at))]
pub fn number_at(limit: u64, rest: &[u8]) -> Result<(u64, &[u8]), NotUnderstood>
    ensures value { Reads (λ x. (x.0, words_after x.1.now)) result (number_at limit (words_after rest.now)) }
    ensures fits { IfOk result (λ x. x.0 ≤ limit) }
{
    let (word, rest) = word_at(rest)?;
    Ok((parse_number(limit, word)?, rest))
}

/// The number in the next word, where it fits 32 bits.
#[inline(always)]
pub fn u32_at(rest: &[u8]) -> Result<(u32, &[u8]), NotUnderstood>
    ensures { Reads (λ x. (x.0, words_after x.1.now)) result (number_at greatest_u32 (words_after rest.now)) }
{
    let (n, rest) = number_at(u64::from(u32::MAX), rest)?;
    Ok((n as u32, rest))
}

/// What was read, where no word is left.
#[inline(always)]
pub fn at_end_of_line<T: Drop>(read: T, rest: &[u8]) -> Result<T, NotUnderstood>
    ensures { Reads (λ x. x) result (at_end_of_line read (words_after rest.now)) }
{
    match next_word(rest) {
        None => Ok(read),
        Some(_) => Err(NotUnderstood),
    }
}
