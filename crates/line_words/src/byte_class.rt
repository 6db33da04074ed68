//! Single bytes of a line, and how far the bytes of a class go from the front on, found sixteen at a time.
ghost use Rattle.std.specs.Prelude.{◌≡◌, ◌+◌, ◌≤◌, ◌<◌, ◌++◌, ℕ, true, false, length, slice_index, IfSome};
ghost use Rattle.std.specs.Fmt.{digit_glyph};
ghost use Rattle.std.specs.List.{list_all, prefix_len};
ghost use Rattle.line_words.specs.Bytes.{is_visible, is_digit, hex_digit};
ghost use Rattle.line_words.specs.Heads.{is_name_byte};
ghost use Rattle.line_words.specs.Escapes.{is_plain, is_pair_plain};
ghost use Rattle.line_words.specs.Classes.{has, begins_with, is_no_space, IsRunIn, first_set};

use std::simd::prelude::*;

const LANES: usize = 16;

/// A class of bytes.
#[derive(Clone, Copy)]
pub(crate) enum ByteClass {
    /// Those of a word: all but the space.
    Word,
    /// Those of a method or a URI.
    Visible,
    /// Those of a header's name: visible, and no colon.
    Name,
    /// Those that stand for themselves in a header's value.
    Value,
    /// Those that stand for themselves in a key or a value of a query.
    Pair,
}

/// The bytes of the class that stand in front, and what stands after them.
#[inline(always)]
pub(crate) fn split_prefix(class: ByteClass, bytes: &[u8]) -> (&[u8], &[u8])
    ensures parts { result.0.now ++ result.1.now ≡ bytes.now }
    ensures class { list_all (has class) result.0.now ≡ true }
    ensures stops { begins_with (has class) result.1.now ≡ false }
    ensures shorter { length result.1.now ≤ length bytes.now }
{
    bytes.split_at(prefix_len(class, bytes))
}

/// How many bytes of the class stand in front.
#[inline(always)]
pub(crate) fn prefix_len(class: ByteClass, bytes: &[u8]) -> usize
    ensures { result ≡ prefix_len (has class) bytes.now }
{
    if bytes.len() < LANES {
        return short_prefix_len(class, bytes);
    }
    let last = bytes.len() - LANES;
    let mut at = 0;
    while at < last {
        let run = run_in_block(class, bytes, at);
        if run < LANES {
            return at + run;
        }
        at += LANES;
    }
    // The last block may overlap the one before.
    last + run_in_block(class, bytes, last)
}

fn short_prefix_len(class: ByteClass, bytes: &[u8]) -> usize
    ensures { result ≡ prefix_len (has class) bytes.now }
{
    let mut at = 0;
    while at < bytes.len() && has(class, bytes[at]) {
        at += 1;
    }
    at
}

/// Whether a byte is of the class.
#[inline(always)]
fn has(class: ByteClass, b: u8) -> bool
    ensures { result ≡ has class b }
{
    match class {
        ByteClass::Word => b != b' ',
        ByteClass::Visible => is_visible(b),
        ByteClass::Name => is_visible(b) && b != b':',
        ByteClass::Value => is_plain(b),
        ByteClass::Pair => is_plain(b) && b != b'=',
    }
}

/// How many of the sixteen bytes from this place are of the class, before one that is not.
#[inline(always)]
fn run_in_block(class: ByteClass, bytes: &[u8], at: usize) -> usize
    requires { at + LANES ≤ length bytes.now }
    ensures { IsRunIn (has class) bytes.now at LANES result }
{
    match class {
        ByteClass::Word => word_run(bytes, at),
        ByteClass::Visible => visible_run(bytes, at),
        ByteClass::Name => name_run(bytes, at),
        ByteClass::Value => value_run(bytes, at),
        ByteClass::Pair => pair_run(bytes, at),
    }
}

#[inline(always)]
fn word_run(bytes: &[u8], at: usize) -> usize
    requires { at + LANES ≤ length bytes.now }
    ensures { IsRunIn is_no_space bytes.now at LANES result }
{
    let v = u8x16::from_slice(&bytes[at..]);
    let stops = v.simd_eq(u8x16::splat(b' '));
    first_set(stops.to_bitmask())
}

#[inline(always)]
fn visible_run(bytes: &[u8], at: usize) -> usize
    requires { at + LANES ≤ length bytes.now }
    ensures { IsRunIn is_visible bytes.now at LANES result }
{
    let v = u8x16::from_slice(&bytes[at..]);
    let stops = v.simd_lt(u8x16::splat(0x21)) | v.simd_gt(u8x16::splat(0x7e));
    first_set(stops.to_bitmask())
}

#[inline(always)]
fn name_run(bytes: &[u8], at: usize) -> usize
    requires { at + LANES ≤ length bytes.now }
    ensures { IsRunIn is_name_byte bytes.now at LANES result }
{
    let v = u8x16::from_slice(&bytes[at..]);
    let hidden = v.simd_lt(u8x16::splat(0x21)) | v.simd_gt(u8x16::splat(0x7e));
    let stops = hidden | v.simd_eq(u8x16::splat(b':'));
    first_set(stops.to_bitmask())
}

#[inline(always)]
fn value_run(bytes: &[u8], at: usize) -> usize
    requires { at + LANES ≤ length bytes.now }
    ensures { IsRunIn is_plain bytes.now at LANES result }
{
    let v = u8x16::from_slice(&bytes[at..]);
    let hidden = v.simd_lt(u8x16::splat(0x21)) | v.simd_gt(u8x16::splat(0x7e));
    let stops = hidden | v.simd_eq(u8x16::splat(b'%'));
    first_set(stops.to_bitmask())
}

#[inline(always)]
fn pair_run(bytes: &[u8], at: usize) -> usize
    requires { at + LANES ≤ length bytes.now }
    ensures { IsRunIn is_pair_plain bytes.now at LANES result }
{
    let v = u8x16::from_slice(&bytes[at..]);
    let hidden = v.simd_lt(u8x16::splat(0x21)) | v.simd_gt(u8x16::splat(0x7e));
    let marks = v.simd_eq(u8x16::splat(b'%')) | v.simd_eq(u8x16::splat(b'='));
    first_set((hidden | marks).to_bitmask())
}

/// The place of the first lane that is set, or the number of lanes.
#[inline(always)]
fn first_set(lanes: u64) -> usize
    ensures { result ≡ first_set lanes LANES }
{
    if lanes == 0 {
        LANES
    } else {
        lanes.trailing_zeros() as usize
    }
}

/// Whether a byte may stand in a word of a method, a URI or a name.
pub fn is_visible(b: u8) -> bool
    ensures { result ≡ is_visible b }
{
    b >= 0x21 && b <= 0x7e
}

/// Whether a byte of a header's value stands for itself.
pub fn is_plain(b: u8) -> bool
    ensures { result ≡ is_plain b }
{
    is_visible(b) && b != b'%'
}

pub fn is_digit(b: u8) -> bool
    ensures { result ≡ is_digit b }
{
    b >= b'0' && b <= b'9'
}

/// The number that a hexadecimal digit represents, whose letters begin with this one.
pub fn hex_digit(letter: u8, b: u8) -> Option<u8>
    requires { letter ≤ 240 }
    ensures value { result ≡ hex_digit letter b }
    ensures below { IfSome result (λ n. n < 16) }
{
    if is_digit(b) {
        Some(b - b'0')
    } else if b >= letter && b <= letter + 5 {
        Some(b - letter + 10)
    } else {
        None
    }
}

/// The upper-case hexadecimal digit of a number below 16.
pub fn upper_hex(n: u8) -> u8
    requires { n < 16 }
    ensures { result ≡ digit_glyph true n }
{
    if n < 10 { b'0' + n } else { b'A' + (n - 10) }
}
