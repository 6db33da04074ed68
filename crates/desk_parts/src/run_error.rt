//! Why no event of a run was taken.
ghost use Rattle.std.specs.Prelude.{Some};
ghost use lib.Chars.{codes};

use std::alloc::AllocError;
use std::error::Error;
use std::fmt;

/// An allocation for the replies of a run failed. No event was taken, and the desk is as it was.
#[derive(Clone, Copy, Debug, Drop, PartialEq, Eq)]
pub struct RunError;

impl fmt::Display for RunError {
    ghost output = { λ _. Some (codes "out of memory") };

    fn fmt<W: fmt::Write>(&self, f: &mut fmt::Formatter<W>) -> fmt::Result {
        f.write_str("out of memory")
    }
}

impl Error for RunError {}

impl From<AllocError> for RunError {
    fn from(_: AllocError) -> RunError {
        RunError
    }
}
