//! Why an item was not added to a desk.
ghost use Rattle.std.specs.Prelude.{◌≡◌, Some};

use std::alloc::AllocError;
use std::error::Error;
use std::fmt;

/// Why nothing was added. The desk is as it was.
#[derive(Clone, Copy, Debug, Drop, PartialEq, Eq)]
pub enum AddError {
    /// A call was begun before.
    Late,
    /// There is no such cache.
    NoCache(u32),
    /// There is no such rule.
    NoRule(u32),
    /// An allocation failed.
    OutOfMemory,
}

impl fmt::Display for AddError {
    ghost use Rattle.desk_parts.specs.AddText.{add_error_text};

    ghost output = { λ e. Some (add_error_text e) };

    fn fmt<W: fmt::Write>(&self, f: &mut fmt::Formatter<W>) -> fmt::Result {
        match self {
            AddError::Late => f.write_str("a call was begun"),
            AddError::NoCache(cache) => write!(f, "no cache {cache}"),
            AddError::NoRule(rule) => write!(f, "no rule {rule}"),
            AddError::OutOfMemory => f.write_str("out of memory"),
        }
    }
}

impl Error for AddError {}

impl From<AllocError> for AddError {
    ghost use Rattle.desk_parts.specs.declared.adding.AddError.TheVariants.{OutOfMemory};

    ghost from_gives = { λ _ e. e ≡ OutOfMemory };

    fn from(_: AllocError) -> AddError {
        AddError::OutOfMemory
    }
}

/// Why nothing was added, with what is handed back.
#[derive(Debug, Drop)]
pub struct AddRefused<T> {
    pub why: AddError,
    pub back: T,
}

impl<T> fmt::Display for AddRefused<T> {
    ghost use Rattle.desk_parts.specs.AddText.{add_error_text};

    ghost output = { λ refused. Some (add_error_text refused.why) };

    fn fmt<W: fmt::Write>(&self, f: &mut fmt::Formatter<W>) -> fmt::Result {
        self.why.fmt(f)
    }
}

impl<T: fmt::Debug + Drop> Error for AddRefused<T> {}
