//! The part of an input that is held, in a buffer of a fixed size: pieces are read in after it, and
//! lines leave it at its front. What is held moves to the buffer's front only where nothing fits
//! after it, so that each byte moves a bounded number of times.
ghost use Rattle.std.specs.Prelude.{◌≡◌, ◌<◌, ◌≤◌, ◌+◌, ◌-◌, [], IfOk, is_err};
ghost use Rattle.std.specs.Prelude.{length, vec_len, take, drop, slice_range};
ghost use Rattle.std.specs.Io.KnownBytes.{ReadConsumes};
ghost use Rattle.sign_io.specs.Faults.{CountsFault};
ghost use Rattle.sign_io.specs.Window.{buffer_size, ReadsPiece};

use crate::{Failed, Source};
use sign_base::NoMemory;
use std::alloc::Global;
use std::marker::Model;

/// The bytes of a buffer: two times those of the longest line, so that what is held of a line is
/// moved only once that many bytes were read.
pub(crate) const BUFFER_SIZE: usize = 131_072;

/// The most bytes of one read: a quarter of the buffer, so that what the lines of one read are
/// answered mostly leaves in one write.
pub(crate) const PIECE_SIZE: usize = 32_768;

#[derive(Drop)]
pub(crate) struct Window {
    bytes: Vec<u8>,
    line: usize,
    line_end: usize,
    start: usize,
    end: usize,
}

impl Model for Window {
    ghost use Rattle.std.specs.Prelude.{◌≡◌, ◌≤◌, vec_len, slice_range};
    ghost use Rattle.sign_io.specs.Window.{HeldBytes, buffer_size};

    ghost Value = { HeldBytes };

    ghost view = { λ w. record {
      line = slice_range w.bytes.items w.line w.line_end;
      held = slice_range w.bytes.items w.start w.end;
    } };

    ghost invariant = { λ w. (vec_len w.bytes ≡ buffer_size) × (w.line ≤ w.line_end) × (w.line_end ≤ w.start)
        × (w.start ≤ w.end) × (w.end ≤ buffer_size) };
}

impl Window {
    /// An empty window, with its buffer taken.
    pub(crate) fn new(alloc: Global) -> Result<Window, NoMemory<()>>
        ensures { IfOk result (λ w. w ≡ record { line = []; held = [] }) }
    {
        Ok(Window {
            bytes: vec![in alloc; 0u8; BUFFER_SIZE]?,
            line: 0,
            line_end: 0,
            start: 0,
            end: 0,
        })
    }

    /// The line that was handed out last.
    pub(crate) fn line(&self) -> &[u8]
        ensures { result.now ≡ self.now.line }
    {
        &self.bytes[self.line..self.line_end]
    }

    /// All that is held.
    pub(crate) fn held(&self) -> &[u8]
        ensures held { result.now ≡ self.now.held }
        ensures few { length self.now.held ≤ buffer_size }
    {
        &self.bytes[self.start..self.end]
    }

    /// Hands out the first `len` bytes as a line, and lets go of the first `all`.
    pub(crate) fn hand_out(&mut self, len: usize, all: usize)
        requires line { len ≤ all }
        requires held { all ≤ length self.old.held }
        ensures { self.new ≡ record { line = take len self.old.held; held = drop all self.old.held } }
    {
        self.line = self.start;
        self.line_end = self.start + len;
        self.start += all;
    }

    /// Reads a piece in after what is held: what the source gives, at most `most` bytes.
    pub(crate) fn read<S: Source>(&mut self, source: &mut S, most: usize) -> Result<usize, Failed>
        requires room { length self.old.held < buffer_size }
        requires most { 0 < most }
        ensures bound { IfOk result (λ n. n ≤ most) }
        ensures piece { ReadsPiece (S.left source.old)
            (S.left source.new) self.old.held self.new.held result }
        ensures faults { CountsFault (is_err result) (S.faults source.old) (S.faults source.new) }
    {
        self.line = 0;
        self.line_end = 0;
        let len = self.end - self.start;
        self.start = with_room(&mut self.bytes, self.start, self.end);
        self.end = self.start + len;
        let most = most.min(PIECE_SIZE);
        let n = read_at(source, self.bytes.as_mut_slice(), self.end, most)?;
        self.end += n;
        Ok(n)
    }
}

/// Where a part of a buffer begins once something fits after it: where it did, or at the buffer's
/// front, to which it moves where nothing fits after it, or where it is empty.
fn with_room(bytes: &mut Vec<u8>, start: usize, end: usize) -> usize
    requires part { (start ≤ end) × (end ≤ vec_len bytes.old) }
    requires room { end - start < vec_len bytes.old }
    ensures room { result + (end - start) < vec_len bytes.new }
    ensures len { vec_len bytes.new ≡ vec_len bytes.old }
    ensures part { slice_range bytes.new.items result (result + (end - start)) ≡
        slice_range bytes.old.items start end }
{
    if start < end && end < bytes.len() {
        return start;
    }
    bytes.copy_within(start..end, 0);
    0
}

/// Reads a piece into a buffer, after its first `at` bytes, which stay.
fn read_at<S: Source>(
    source: &mut S,
    buffer: &mut [u8],
    at: usize,
    most: usize,
) -> Result<usize, Failed>
    requires room { at < length buffer.old }
    requires most { 0 < most }
    ensures kept { take at buffer.new ≡ take at buffer.old }
    ensures bound { IfOk result (λ n. (n ≤ most) × (at + n ≤ length buffer.new)) }
    ensures piece { ReadConsumes (S.left source.old) (S.left source.new) result (drop at buffer.new) }
    ensures faults { CountsFault (is_err result) (S.faults source.old) (S.faults source.new) }
{
    let room = most.min(buffer.len() - at);
    source.read(&mut buffer[at..at + room])
}
