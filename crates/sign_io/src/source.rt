//! Where bytes come from. A source gives them in pieces of any size, may let contracts observe what is
//! still to come, and counts its faults, so that a failed read has a cause that a caller can see.
ghost use Rattle.std.specs.Prelude.{◌≡◌, ℕ, Option, Some, None, Ok, List, length, take, drop, ◌++◌};
ghost use Rattle.std.specs.Prelude.{min, ◌<◌, is_ok, is_err, codes, if◌then◌else◌};
ghost use Rattle.std.specs.Fmt.{WritesOnOk, WritesStyledOnOk};
ghost use Rattle.std.specs.Io.KnownBytes.{ReadConsumes};
ghost use Rattle.std.specs.Io.{ReadsAtMost};
ghost use Rattle.sign_io.specs.Faults.{CountsFault, one_more};

use std::error::Error;
use std::fmt;
use std::io::Read;
use std::marker::Model;

/// A read or a write did not happen.
#[derive(Clone, Copy, Debug, PartialEq, Eq)]
pub struct Failed;

impl fmt::Display for Failed {
    ghost output = { λ _. Some (codes "a read or a write failed") };

    fn fmt<W: fmt::Write>(&self, f: &mut fmt::Formatter<W>) -> fmt::Result {
        f.write_str("a read or a write failed")
    }
}

impl Error for Failed {}

/// Bytes that are read once, front to end.
pub trait Source {
    /// The bytes that are still to come, where contracts can observe them.
    ghost left: { Self → Option (List ℕ) };

    /// How often a read has failed.
    ghost faults: { Self → ℕ };

    /// Reads the next bytes into the front of `buf` and answers their number, at most the length
    /// of `buf`. No bytes are the end. After `Failed` what is to come is as before.
    fn read(&mut self, buf: &mut [u8]) -> Result<usize, Failed>
        requires { 0 < length buf.old }
        ensures bound { ReadsAtMost result buf.new }
        ensures bytes { ReadConsumes (left self.old) (left self.new) result buf.new }
        ensures faults { CountsFault (is_err result) (faults self.old) (faults self.new) };
}

/// Bytes in memory. It never fails. `Debug` shows nothing of them.
#[derive(Drop)]
pub struct MemorySource {
    bytes: Vec<u8>,
    at: usize,
}

impl Model for MemorySource {
    ghost use Rattle.std.specs.Prelude.{ℕ, List, drop, vec_len, ◌≤◌};

    ghost Value = { List ℕ };

    ghost view = { λ s. drop s.at s.bytes.items };

    ghost invariant = { λ s. s.at ≤ vec_len s.bytes };
}

impl MemorySource {
    pub fn new(bytes: Vec<u8>) -> MemorySource
        ensures { result ≡ bytes.items }
    {
        MemorySource { bytes, at: 0 }
    }
}

impl fmt::Debug for MemorySource {
    ghost debug_output = { λ _. Some (codes "MemorySource(***)") };

    fn fmt<W: fmt::Write>(&self, f: &mut fmt::Formatter<W>) -> fmt::Result
        ensures writes { WritesOnOk W.write_str_gives f.old result (codes "MemorySource(***)") f.new }
        ensures styled { WritesStyledOnOk W.write_str_gives f.old result (codes "MemorySource(***)") f.new }
    {
        f.write_str("MemorySource(***)")
    }
}

impl Source for MemorySource {
    ghost left = { λ s. Some s };

    ghost faults = { λ _. 0 };

    fn read(&mut self, buf: &mut [u8]) -> Result<usize, Failed>
        requires { 0 < length buf.old }
        ensures count { result ≡ Ok (min (length self.old) (length buf.old)) }
        ensures bound { ReadsAtMost result buf.new }
        ensures bytes { ReadConsumes (Some self.old) (Some self.new) result buf.new }
        ensures faults { CountsFault (is_err result) 0 0 }
    {
        let n = copy_front(&self.bytes[self.at..], buf);
        self.at += n;
        Ok(n)
    }
}

/// A reader of the standard library. Contracts observe what its reader lets them, which is nothing for a
/// file, a pipe or a terminal, and counts its faults up to the last number of a `u64`. Nothing is tried
/// again, also where the reader was interrupted. `Debug` does not show the reader, which may hold bytes.
#[derive(Drop)]
pub struct StdSource<R> {
    reader: R,
    faults: u64,
}

impl<R> Model for StdSource<R> {
    ghost use Rattle.sign_io.specs.Faults.{Counted};

    ghost Value = { Counted R };

    ghost view = { λ s. record { stream = s.reader; faults = s.faults } };
}

impl<R: Read> StdSource<R> {
    pub fn new(reader: R) -> StdSource<R>
        ensures { result ≡ record { stream = reader; faults = 0 } }
    {
        StdSource { reader, faults: 0 }
    }
}

impl<R> fmt::Debug for StdSource<R> {
    fn fmt<W: fmt::Write>(&self, f: &mut fmt::Formatter<W>) -> fmt::Result {
        f.debug_struct("StdSource")
            .field("faults", &self.faults)
            .finish_non_exhaustive()
    }
}

impl<R: Read> Source for StdSource<R> {
    ghost left = { λ s. R.remaining s.stream };

    ghost faults = { λ s. s.faults };

    fn read(&mut self, buf: &mut [u8]) -> Result<usize, Failed>
        requires { 0 < length buf.old }
        ensures counted { self.new.faults ≡
            (if is_ok result then self.old.faults else one_more self.old.faults) }
        ensures bound { ReadsAtMost result buf.new }
        ensures bytes { ReadConsumes (R.remaining self.old.stream)
            (R.remaining self.new.stream) result buf.new }
        ensures faults { CountsFault (is_err result) self.old.faults self.new.faults }
    {
        match self.reader.read(buf) {
            Ok(n) => Ok(n),
            Err(_) => {
                self.faults = self.faults.saturating_add(1);
                Err(Failed)
            }
        }
    }
}

/// Copies as many bytes as there are and fit, from the front of one slice to that of the other.
fn copy_front(from: &[u8], to: &mut [u8]) -> usize
    ensures count { result ≡ min (length from.now) (length to.old) }
    ensures copied { take result to.new ++ drop result from.now ≡ from.now }
{
    let n = from.len().min(to.len());
    to[..n].copy_from_slice(&from[..n]);
    n
}
