//! Errors of the libraries below, as errors of this crate. The text stays the message; the
//! kind says what to do. An error that is itself out of memory stays out of memory.
ghost use Rattle.std.specs.Prelude.{◌≡◌, IfOk, IfErr, IsErr, Some};
ghost use Rattle.std.specs.IoError.{error_kind};
ghost use Rattle.std.specs.declared.io.ErrorKind.{ErrorKind as IoErrorKind};
ghost use Rattle.anyhow.specs.Error.{error_message};
ghost use Rattle.sign_base.specs.Error.{new_error};
ghost use Rattle.sign_base.specs.Conversion.{IsOfKindWithText, IsOfKind, kind_of_io, is_retried_io};
ghost use Rattle.sign_base.specs.declared.error_kind.ErrorKind.TheVariants.{Unexpected};

use crate::{Error, ErrorKind, NoMemory};
use std::alloc::Global;
use std::string::FromUtf8Error;
use std::{fmt, io};

impl Error {
    /// A new error of this kind, whose message is what its cause prints.
    pub fn from_display<D: fmt::Display>(
        alloc: Global,
        kind: ErrorKind,
        cause: &D,
    ) -> Result<Error, NoMemory<()>>
        ensures { IfOk result (IsOfKindWithText kind (D.output cause.now)) }
    {
        let message = format!(in alloc; "{cause}")?;
        Ok(Error::of(kind, message))
    }

    /// `Unexpected`, over the error itself, which comes back where there is no memory for its text.
    pub fn from_anyhow(alloc: Global, err: anyhow::Error) -> Result<Error, NoMemory<anyhow::Error>>
        ensures ok { IfOk result
            (λ e. e ≡ record (new_error Unexpected (error_message err)) { source = Some err }) }
        ensures back { IfErr result (λ e. e.back ≡ err) }
    {
        match Error::from_display(alloc, ErrorKind::Unexpected, &err) {
            Ok(error) => Ok(error.with_source(err)),
            Err(_) => Err(NoMemory { back: err }),
        }
    }

    /// `Unexpected`.
    pub fn from_fmt(alloc: Global, err: &fmt::Error) -> Result<Error, NoMemory<()>>
        ensures { IfOk result (IsOfKind Unexpected) }
    {
        Error::from_display(alloc, ErrorKind::Unexpected, err)
    }

    /// `Unexpected`.
    pub fn from_utf8(alloc: Global, err: &FromUtf8Error) -> Result<Error, NoMemory<()>>
        ensures { IfOk result (IsOfKind Unexpected) }
    {
        Error::from_display(alloc, ErrorKind::Unexpected, err)
    }

    /// `ConfigInvalid` where something was not found, `PermissionDenied` where that was the cause,
    /// else `Unexpected`; retryable where it timed out, was interrupted or was refused a connection.
    pub fn from_io(alloc: Global, err: &io::Error) -> Result<Error, NoMemory<()>>
        ensures parts { IfOk result (λ e. e ≡ record (new_error (kind_of_io (error_kind err.now)) e.message)
            { retryable = is_retried_io (error_kind err.now) }) }
        ensures memory { error_kind err.now ≡ IoErrorKind.OutOfMemory → IsErr result }
    {
        let (kind, retryable) = match err.kind() {
            io::ErrorKind::OutOfMemory => return Err(NoMemory { back: () }),
            io::ErrorKind::NotFound => (ErrorKind::ConfigInvalid, false),
            io::ErrorKind::PermissionDenied => (ErrorKind::PermissionDenied, false),
            io::ErrorKind::TimedOut
            | io::ErrorKind::Interrupted
            | io::ErrorKind::ConnectionRefused => (ErrorKind::Unexpected, true),
            _ => (ErrorKind::Unexpected, false),
        };
        Ok(Error::from_display(alloc, kind, err)?.set_retryable(retryable))
    }
}
