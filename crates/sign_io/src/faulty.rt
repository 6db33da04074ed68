//! A source and a sink for tests of faults: they work in small pieces, and fail at the calls that a
//! plan names.
ghost use Rattle.std.specs.Prelude.{◌≡◌, Some, List, length, min, [], ◌-◌, ◌==◌};
ghost use Rattle.std.specs.Prelude.{◌||◌, ◌<◌, ◌≤◌, IfOk, IfErr, OnErr, is_err, codes};
ghost use Rattle.std.specs.Fmt.{WritesOnOk, WritesStyledOnOk};
ghost use Rattle.std.specs.Io.KnownBytes.{ReadConsumes, WriteAppends};
ghost use Rattle.std.specs.Io.{ReadsAtMost};
ghost use Rattle.sign_io.specs.Faults.{CountsFault};
ghost use Rattle.sign_io.specs.Faulty.{fails_next, one_call};

use crate::source::Failed;
use crate::{MemorySink, MemorySource, Sink, Source};
use sign_base::NoMemory;
use std::alloc::Global;
use std::fmt;
use std::marker::Model;

/// Which calls fail, counted from 0, and what happened so far.
#[derive(Drop)]
struct FaultPlan {
    fails: Vec<u64>,
    calls: u64,
    faults: u64,
}

impl Model for FaultPlan {
    ghost use Rattle.sign_io.specs.Faulty.{Plan};

    ghost Value = { Plan };

    ghost view = { λ p. record { fails = p.fails.items; calls = p.calls; faults = p.faults } };
}

impl FaultPlan {
    fn new(fails: Vec<u64>) -> FaultPlan
        ensures { result ≡ record { fails = fails.items; calls = 0; faults = 0 } }
    {
        FaultPlan {
            fails,
            calls: 0,
            faults: 0,
        }
    }

    /// Notes one call, which fails where it is planned or `unable`.
    fn fails(&mut self, unable: bool) -> bool
        ensures fails { result ≡ unable || fails_next self.old }
        ensures noted { self.new ≡ one_call result self.old }
        ensures counted { CountsFault result self.old.faults self.new.faults }
    {
        let failed = unable || self.fails.contains(&self.calls);
        self.calls = self.calls.saturating_add(1);
        if failed {
            self.faults = self.faults.saturating_add(1);
        }
        failed
    }
}

/// Bytes in memory that are read in pieces, with reads that fail. `Debug` shows nothing of it.
#[derive(Drop)]
pub struct FaultySource {
    bytes: MemorySource,
    piece: usize,
    plan: FaultPlan,
}

impl Model for FaultySource {
    ghost use Rattle.std.specs.Prelude.{◌<◌};
    ghost use Rattle.sign_io.specs.Faulty.{FaultyInput};

    ghost Value = { FaultyInput };

    ghost view = { λ s. record { left = s.bytes; piece = s.piece; plan = s.plan } };

    ghost invariant = { λ s. 0 < s.piece };
}

impl FaultySource {
    /// A source of these bytes that gives `piece` of them to a read, or as many as are left and fit,
    /// and fails exactly at the reads whose numbers, from 0, stand in `fails`.
    pub fn new(bytes: Vec<u8>, piece: usize, fails: Vec<u64>) -> FaultySource
        requires { 0 < piece }
        ensures { result ≡ record {
          left = bytes.items;
          piece = piece;
          plan = record { fails = fails.items; calls = 0; faults = 0 };
        } }
    {
        FaultySource {
            bytes: MemorySource::new(bytes),
            piece,
            plan: FaultPlan::new(fails),
        }
    }
}

impl fmt::Debug for FaultySource {
    ghost debug_output = { λ _. Some (codes "FaultySource(***)") };

    fn fmt<W: fmt::Write>(&self, f: &mut fmt::Formatter<W>) -> fmt::Result
        ensures writes { WritesOnOk W.write_str_gives f.old result (codes "FaultySource(***)") f.new }
        ensures styled { WritesStyledOnOk W.write_str_gives f.old result (codes "FaultySource(***)") f.new }
    {
        f.write_str("FaultySource(***)")
    }
}

impl Source for FaultySource {
    ghost left = { λ s. Some s.left };

    ghost faults = { λ s. s.plan.faults };

    fn read(&mut self, buf: &mut [u8]) -> Result<usize, Failed>
        requires { 0 < length buf.old }
        ensures fails { is_err result ≡ fails_next self.old.plan }
        ensures piece { IfOk result
            (λ n. n ≡ min self.old.piece (min (length self.old.left) (length buf.old))) }
        ensures plan { self.new.plan ≡ one_call (is_err result) self.old.plan }
        ensures same { self.new.piece ≡ self.old.piece }
        ensures bound { ReadsAtMost result buf.new }
        ensures bytes { ReadConsumes (Some self.old.left) (Some self.new.left) result buf.new }
        ensures faults { CountsFault (is_err result) self.old.plan.faults self.new.plan.faults }
    {
        if self.plan.fails(false) {
            return Err(Failed);
        }
        let most = self.piece.min(buf.len());
        self.bytes.read(&mut buf[..most])
    }
}

/// Bytes in memory that are written in pieces, with writes that fail. `Debug` shows nothing of it.
#[derive(Drop)]
pub struct FaultySink {
    bytes: MemorySink,
    piece: usize,
    plan: FaultPlan,
}

impl Model for FaultySink {
    ghost use Rattle.std.specs.Prelude.{◌<◌};
    ghost use Rattle.sign_io.specs.Faulty.{FaultyOutput};

    ghost Value = { FaultyOutput };

    ghost view = { λ s.
        record { holds = s.bytes.holds; room = s.bytes.room; piece = s.piece; plan = s.plan } };

    ghost invariant = { λ s. 0 < s.piece };
}

impl FaultySink {
    /// An empty sink that takes at most `piece` bytes of a write, and fails exactly where no room is
    /// left and at the writes whose numbers, from 0, stand in `fails`. Its room is taken now; where
    /// there is no memory for it, `fails` comes back.
    pub fn new(
        alloc: Global,
        room: usize,
        piece: usize,
        fails: Vec<u64>,
    ) -> Result<FaultySink, NoMemory<Vec<u64>>>
        requires { 0 < piece }
        ensures ok { IfOk result (λ s. s ≡ record {
          holds = [];
          room = room;
          piece = piece;
          plan = record { fails = fails.items; calls = 0; faults = 0 };
        }) }
        ensures back { IfErr result (λ e. e.back ≡ fails) }
    {
        let Ok(bytes) = MemorySink::new(alloc, room) else {
            return Err(NoMemory { back: fails });
        };
        Ok(FaultySink {
            bytes,
            piece,
            plan: FaultPlan::new(fails),
        })
    }

    /// All that the sink holds.
    pub fn written(&self) -> &[u8]
        ensures { result.now ≡ self.now.holds }
    {
        self.bytes.written()
    }
}

impl fmt::Debug for FaultySink {
    ghost debug_output = { λ _. Some (codes "FaultySink(***)") };

    fn fmt<W: fmt::Write>(&self, f: &mut fmt::Formatter<W>) -> fmt::Result
        ensures writes { WritesOnOk W.write_str_gives f.old result (codes "FaultySink(***)") f.new }
        ensures styled { WritesStyledOnOk W.write_str_gives f.old result (codes "FaultySink(***)") f.new }
    {
        f.write_str("FaultySink(***)")
    }
}

impl Sink for FaultySink {
    ghost holds = { λ s. Some s.holds };

    ghost faults = { λ s. s.plan.faults };

    fn write(&mut self, piece: &[u8]) -> Result<usize, Failed>
        requires { 0 < length piece.now }
        ensures fails { is_err result ≡ (self.old.room == 0) || fails_next self.old.plan }
        ensures taken { IfOk result (λ n. n ≡ min self.old.room (min self.old.piece (length piece.now))) }
        ensures room { IfOk result (λ n. self.new.room ≡ self.old.room - n) }
        ensures full { OnErr result (self.new.room ≡ self.old.room) }
        ensures plan { self.new.plan ≡ one_call (is_err result) self.old.plan }
        ensures same { self.new.piece ≡ self.old.piece }
        ensures some { IfOk result (λ n. 0 < n) }
        ensures bound { IfOk result (λ n. n ≤ length piece.now) }
        ensures bytes { WriteAppends (Some self.old.holds) (Some self.new.holds) result piece.now }
        ensures faults { CountsFault (is_err result) self.old.plan.faults self.new.plan.faults }
    {
        if self.plan.fails(self.bytes.is_full()) {
            return Err(Failed);
        }
        let most = self.piece.min(piece.len());
        self.bytes.write(&piece[..most])
    }
}
