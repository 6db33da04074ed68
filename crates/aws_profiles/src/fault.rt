//! Why a shared file cannot be read.
ghost use Rattle.std.specs.Prelude.{◌≡◌, ◌≢◌, ◌++◌, [], IfOk};
ghost use Rattle.sign_base.specs.Error.{new_error};
ghost use Rattle.sign_base.specs.declared.error_kind.ErrorKind.TheVariants as kind;
ghost use Rattle.aws_profiles.specs.Settings.{fault_text};
ghost use Rattle.aws_profiles.specs.declared.fault.FileFault.TheVariants as fault;

use sign_base::{Error, ErrorKind, NoMemory};
use std::alloc::{AllocError, AllocFailed, Global};

/// Why a shared file cannot be read.
#[derive(Clone, Copy, Debug, PartialEq, Eq)]
pub enum FileFault {
    OutOfMemory,
    /// It has more than 1 MiB.
    TooLong,
    /// Its bytes are not UTF-8.
    NotUtf8,
    /// A line has no form of a line, sets a key in no section, or continues no setting.
    BadLine,
}

impl FileFault {
    /// The error with this cause and the file's place. It shows nothing of the file's bytes.
    pub(crate) fn error_in(self, alloc: Global, place: &str) -> Result<Error, NoMemory<()>>
        ensures memory { self ≡ FileFault.OutOfMemory → IfOk result (λ e. e ≡ new_error kind.OutOfMemory []) }
        ensures invalid { self ≢ FileFault.OutOfMemory
            → IfOk result (λ e. e ≡ new_error kind.CredentialInvalid (fault_text self ++ place.now)) }
    {
        if self == FileFault::OutOfMemory {
            return Ok(Error::out_of_memory());
        }
        let mut message = String::from_str(alloc, self.text())?;
        message.push_str(place)?;
        Ok(Error::of(ErrorKind::CredentialInvalid, message))
    }

    fn text(self) -> &'static str
        ensures { result.now ≡ fault_text self }
    {
        match self {
            FileFault::OutOfMemory => "out of memory for ",
            FileFault::TooLong => "too many bytes in ",
            FileFault::NotUtf8 => "bytes that are no text in ",
            FileFault::BadLine => "bad line in ",
        }
    }
}

impl From<AllocError> for FileFault {
    ghost from_gives = { λ _ cause. cause ≡ fault.OutOfMemory };

    fn from(_: AllocError) -> FileFault {
        FileFault::OutOfMemory
    }
}

impl<T: Drop> From<AllocFailed<T>> for FileFault {
    ghost from_gives = { λ _ cause. cause ≡ fault.OutOfMemory };

    fn from(_: AllocFailed<T>) -> FileFault {
        FileFault::OutOfMemory
    }
}
