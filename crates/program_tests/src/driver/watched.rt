//! A source that looks at each read how much was written to its sink, in a word that they share, and a
//! sink that may fail. Both count their calls. What they count as faults stands at its greatest
//! number, so any call may fail.
ghost use Rattle.std.specs.Prelude.{None};
ghost use Rattle.sign_io.specs.Faults.{last_count};

use sign_io::{Failed, Sink, Source};
use std::sync::atomic::{AtomicU64, Ordering};

/// Bytes in pieces, a read that fails, and how many bytes are to stand in the sink where so many were
/// given.
#[derive(Drop)]
pub struct WatchedSource<'a> {
    left: &'a [u8],
    piece: usize,
    fails: u64,
    given: usize,
    allowed: &'a [u64],
    written: &'a AtomicU64,
    reads: u64,
    late: u64,
}

impl<'a> WatchedSource<'a> {
    /// Reads are numbered from 0. No read fails where `fails` is past the last.
    pub fn new(
        bytes: &'a [u8],
        piece: usize,
        fails: u64,
        allowed: &'a [u64],
        written: &'a AtomicU64,
    ) -> WatchedSource<'a> {
        WatchedSource {
            left: bytes,
            piece,
            fails,
            given: 0,
            allowed,
            written,
            reads: 0,
            late: 0,
        }
    }

    /// How many reads there were.
    pub fn reads(&self) -> u64 {
        self.reads
    }

    /// How many reads there were at which the sink held another number of bytes.
    pub fn late(&self) -> u64 {
        self.late
    }
}

impl Source for WatchedSource<'_> {
    ghost left = { λ _. None };

    ghost faults = { λ _. last_count };

    fn read(&mut self, buf: &mut [u8]) -> Result<usize, Failed> {
        let number = self.reads;
        self.reads = number.saturating_add(1);
        if self.allowed.get(self.given).copied() != Some(self.written.load(Ordering::SeqCst)) {
            self.late = self.late.saturating_add(1);
        }
        if number == self.fails {
            return Err(Failed);
        }
        let n = self.piece.min(self.left.len()).min(buf.len());
        let (piece, left) = self.left.split_at(n);
        buf[..n].copy_from_slice(piece);
        self.left = left;
        self.given = self.given.saturating_add(n);
        Ok(n)
    }
}

/// A sink that takes what it is given, and counts its bytes.
#[derive(Drop)]
pub struct CountingSink<'a> {
    written: &'a AtomicU64,
    fails: u64,
    writes: u64,
}

impl<'a> CountingSink<'a> {
    /// Writes are numbered from 0. No write fails where `fails` is past the last.
    pub fn new(written: &'a AtomicU64, fails: u64) -> CountingSink<'a> {
        CountingSink {
            written,
            fails,
            writes: 0,
        }
    }

    /// How many writes there were.
    pub fn writes(&self) -> u64 {
        self.writes
    }
}

impl Sink for CountingSink<'_> {
    ghost holds = { λ _. None };

    ghost faults = { λ _. last_count };

    fn write(&mut self, piece: &[u8]) -> Result<usize, Failed> {
        let number = self.writes;
        self.writes = number.saturating_add(1);
        if number == self.fails {
            return Err(Failed);
        }
        self.written.fetch_add(piece.len() as u64, Ordering::SeqCst);
        Ok(piece.len())
    }
}
