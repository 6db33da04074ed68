//! A failed allocation, the one refusal that no argument explains.
ghost use Rattle.std.specs.Prelude.{Some, codes};
ghost use Rattle.std.specs.Fmt.{WritesOnOk, WritesStyledOnOk};

use std::alloc::{AllocError, AllocFailed};
use std::error::Error;
use std::fmt;

/// An allocation failed; what the call had taken is handed back. `Debug` shows nothing of that.
#[derive(Drop)]
pub struct NoMemory<B> {
    pub back: B,
}

impl<B> fmt::Display for NoMemory<B> {
    ghost output = { λ _. Some (codes "out of memory") };

    fn fmt<W: fmt::Write>(&self, f: &mut fmt::Formatter<W>) -> fmt::Result {
        f.write_str("out of memory")
    }
}

impl<B> fmt::Debug for NoMemory<B> {
    ghost debug_output = { λ _. Some (codes "NoMemory(***)") };

    fn fmt<W: fmt::Write>(&self, f: &mut fmt::Formatter<W>) -> fmt::Result
        ensures writes { WritesOnOk W.write_str_gives f.old result (codes "NoMemory(***)") f.new }
        ensures styled { WritesStyledOnOk W.write_str_gives f.old result (codes "NoMemory(***)") f.new }
    {
        f.write_str("NoMemory(***)")
    }
}

impl<B: Drop> Error for NoMemory<B> {}

impl From<AllocError> for NoMemory<()> {
    fn from(_: AllocError) -> NoMemory<()> {
        NoMemory { back: () }
    }
}

impl<T: Drop> From<AllocFailed<T>> for NoMemory<()> {
    fn from(_: AllocFailed<T>) -> NoMemory<()> {
        NoMemory { back: () }
    }
}
