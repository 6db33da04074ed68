//! Where bytes go. A sink takes any part of a piece, may let contracts observe what it holds, and
//! counts its faults, so that a failed write has a cause that a caller can see.
ghost use Rattle.std.specs.Prelude.{◌≡◌, ℕ, Option, Some, None, List, length, ◌<◌, ◌≤◌, ◌-◌, ◌==◌};
ghost use Rattle.std.specs.Prelude.{◌↔◌, IfOk, IsErr, is_ok, is_err, min, [], codes, if◌then◌else◌};
ghost use Rattle.std.specs.Fmt.{WritesOnOk, WritesStyledOnOk};
ghost use Rattle.std.specs.Io.KnownBytes.{WriteAppends};
ghost use Rattle.sign_io.specs.Faults.{CountsFault, one_more};

use crate::source::Failed;
use sign_base::NoMemory;
use std::alloc::Global;
use std::fmt;
use std::io::Write;
use std::marker::Model;

/// Bytes that are written once, front to end.
pub trait Sink {
    /// All that was written, where contracts can observe it.
    ghost holds: { Self → Option (List ℕ) };

    /// How often a write has failed.
    ghost faults: { Self → ℕ };

    /// Takes some bytes from the front of `piece`, at least one, and answers their number. After
    /// `Failed` it holds what it held.
    fn write(&mut self, piece: &[u8]) -> Result<usize, Failed>
        requires { 0 < length piece.now }
        ensures some { IfOk result (λ n. 0 < n) }
        ensures bound { IfOk result (λ n. n ≤ length piece.now) }
        ensures bytes { WriteAppends (holds self.old) (holds self.new) result piece.now }
        ensures faults { CountsFault (is_err result) (faults self.old) (faults self.new) };
}

/// Bytes in memory, with room for so many and no more. A write takes what fits, and fails where
/// there is no room. `Debug` shows nothing of what it holds.
#[derive(Drop)]
pub struct MemorySink {
    bytes: Vec<u8>,
    room: usize,
    faults: u64,
}

impl Model for MemorySink {
    ghost use Rattle.std.specs.Prelude.{vec_len, vec_capacity, ◌+◌, ◌≤◌};
    ghost use Rattle.sign_io.specs.Filled.{Filled};

    ghost Value = { Filled };

    ghost view = { λ s. record { holds = s.bytes.items; room = s.room; faults = s.faults } };

    ghost invariant = { λ s. vec_len s.bytes + s.room ≤ vec_capacity s.bytes };
}

impl MemorySink {
    /// An empty sink, with its room taken.
    pub fn new(alloc: Global, room: usize) -> Result<MemorySink, NoMemory<()>>
        ensures { IfOk result (λ s. s ≡ record { holds = []; room = room; faults = 0 }) }
    {
        Ok(MemorySink {
            bytes: Vec::with_capacity(alloc, room)?,
            room,
            faults: 0,
        })
    }

    /// All that the sink holds.
    pub fn written(&self) -> &[u8]
        ensures { result.now ≡ self.now.holds }
    {
        self.bytes.as_slice()
    }

    /// Whether no room is left.
    pub(crate) fn is_full(&self) -> bool
        ensures { result ≡ (self.now.room == 0) }
    {
        self.room == 0
    }
}

impl fmt::Debug for MemorySink {
    ghost debug_output = { λ _. Some (codes "MemorySink(***)") };

    fn fmt<W: fmt::Write>(&self, f: &mut fmt::Formatter<W>) -> fmt::Result
        ensures writes { WritesOnOk W.write_str_gives f.old result (codes "MemorySink(***)") f.new }
        ensures styled { WritesStyledOnOk W.write_str_gives f.old result (codes "MemorySink(***)") f.new }
    {
        f.write_str("MemorySink(***)")
    }
}

impl Sink for MemorySink {
    ghost holds = { λ s. Some s.holds };

    ghost faults = { λ s. s.faults };

    fn write(&mut self, piece: &[u8]) -> Result<usize, Failed>
        requires { 0 < length piece.now }
        ensures taken { IfOk result (λ n. n ≡ min self.old.room (length piece.now)) }
        ensures full { IsErr result ↔ (self.old.room ≡ 0) }
        ensures room { self.new.room ≡ self.old.room - length piece.now }
        ensures counted { self.new.faults ≡
            (if is_ok result then self.old.faults else one_more self.old.faults) }
        ensures some { IfOk result (λ n. 0 < n) }
        ensures bound { IfOk result (λ n. n ≤ length piece.now) }
        ensures bytes { WriteAppends (Some self.old.holds) (Some self.new.holds) result piece.now }
        ensures faults { CountsFault (is_err result) self.old.faults self.new.faults }
    {
        if self.room == 0 {
            self.faults = self.faults.saturating_add(1);
            return Err(Failed);
        }
        let n = self.room.min(piece.len());
        match self.bytes.extend_from_slice(&piece[..n]) {
            Ok(()) => {}
            Err(_) => unreachable!(),
        }
        self.room -= n;
        Ok(n)
    }
}

/// A writer of the standard library. Contracts observe what its writer lets them, which is nothing for a
/// file, a pipe or a terminal, and counts its faults up to the last number of a `u64`. Nothing is tried
/// again, also where the writer was interrupted, and a writer that takes nothing has failed. `Debug` does not
/// show the writer, which may hold bytes.
#[derive(Drop)]
pub struct StdSink<W> {
    writer: W,
    faults: u64,
}

impl<W> Model for StdSink<W> {
    ghost use Rattle.sign_io.specs.Faults.{Counted};

    ghost Value = { Counted W };

    ghost view = { λ s. record { stream = s.writer; faults = s.faults } };
}

impl<W: Write> StdSink<W> {
    pub fn new(writer: W) -> StdSink<W>
        ensures { result ≡ record { stream = writer; faults = 0 } }
    {
        StdSink { writer, faults: 0 }
    }
}

impl<S> fmt::Debug for StdSink<S> {
    fn fmt<W: fmt::Write>(&self, f: &mut fmt::Formatter<W>) -> fmt::Result {
        f.debug_struct("StdSink")
            .field("faults", &self.faults)
            .finish_non_exhaustive()
    }
}

impl<W: Write> Sink for StdSink<W> {
    ghost holds = { λ s. W.contents s.stream };

    ghost faults = { λ s. s.faults };

    fn write(&mut self, piece: &[u8]) -> Result<usize, Failed>
        requires { 0 < length piece.now }
        ensures counted { self.new.faults ≡
            (if is_ok result then self.old.faults else one_more self.old.faults) }
        ensures some { IfOk result (λ n. 0 < n) }
        ensures bound { IfOk result (λ n. n ≤ length piece.now) }
        ensures bytes { WriteAppends (W.contents self.old.stream)
            (W.contents self.new.stream) result piece.now }
        ensures faults { CountsFault (is_err result) self.old.faults self.new.faults }
    {
        match self.writer.write(piece) {
            Ok(n) if n > 0 => Ok(n),
            _ => {
                self.faults = self.faults.saturating_add(1);
                Err(Failed)
            }
        }
    }
}
