//! Why a line was not read, or is bad.
ghost use Rattle.std.specs.Prelude.{◌≡◌};
ghost use Rattle.line_words.specs.LineErrors.{line_error_text};

use sign_base::NoMemory;
use std::alloc::{AllocError, AllocFailed};
use std::fmt;

/// The words are none of the grammar's: the one cause of a reader that takes no memory.
#[derive(Clone, Copy, Debug, PartialEq, Eq)]
pub struct NotUnderstood;

/// Why a reader that takes memory gave nothing.
#[derive(Debug, Drop)]
pub enum ReadError {
    /// The words are none of the grammar's.
    NotUnderstood,
    OutOfMemory,
}

impl From<NotUnderstood> for ReadError {
    ghost use Rattle.line_words.specs.declared.read_error.ReadError.TheVariants as read_error;

    ghost from_gives = { λ _ e. e ≡ read_error.NotUnderstood };

    fn from(_cause: NotUnderstood) -> ReadError {
        ReadError::NotUnderstood
    }
}

impl<B: Drop> From<NoMemory<B>> for ReadError {
    ghost use Rattle.line_words.specs.declared.read_error.ReadError.TheVariants.{OutOfMemory};

    ghost from_gives = { λ _ e. e ≡ OutOfMemory };

    fn from(_want: NoMemory<B>) -> ReadError {
        ReadError::OutOfMemory
    }
}

impl<T: Drop> From<AllocFailed<T>> for ReadError {
    ghost use Rattle.line_words.specs.declared.read_error.ReadError.TheVariants.{OutOfMemory};

    ghost from_gives = { λ _ e. e ≡ OutOfMemory };

    fn from(_want: AllocFailed<T>) -> ReadError {
        ReadError::OutOfMemory
    }
}

impl From<AllocError> for ReadError {
    ghost use Rattle.line_words.specs.declared.read_error.ReadError.TheVariants.{OutOfMemory};

    ghost from_gives = { λ _ e. e ≡ OutOfMemory };

    fn from(_want: AllocError) -> ReadError {
        ReadError::OutOfMemory
    }
}

/// Why a line is bad that is not too long, in the order in which the causes are tested: the first that
/// holds is named.
#[derive(Clone, Copy, Debug, PartialEq, Eq)]
pub enum LineError {
    /// It spells no form.
    NotUnderstood,
    /// It is a cache or a handle, and an event stands before it.
    Late,
    /// It is a handle on a cache that was not made.
    NoSuchCache,
}

impl LineError {
    pub fn as_str(self) -> &'static str
        ensures { result.now ≡ line_error_text self }
    {
        match self {
            LineError::NotUnderstood => "not understood",
            LineError::Late => "late",
            LineError::NoSuchCache => "no such cache",
        }
    }
}

impl fmt::Display for LineError {
    ghost use Rattle.std.specs.Prelude.{Some};
    ghost use Rattle.line_words.specs.LineErrors.{line_error_text};

    ghost output = { λ e. Some (line_error_text e) };

    fn fmt<W: fmt::Write>(&self, f: &mut fmt::Formatter<W>) -> fmt::Result {
        f.write_str(self.as_str())
    }
}
