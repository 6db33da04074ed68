//! Errors of `http` and its parts, as errors of the signer. The text stays the message, and the kind is
//! `RequestInvalid`. An error that is itself out of memory stays out of memory.
ghost use Rattle.std.specs.Prelude.{◌≡◌, IfOk, IsErr};
ghost use Rattle.http.specs.declared.error.Error.{Error as HttpError};
ghost use Rattle.http_header.specs.declared.name.HeaderNameError.{HeaderNameError as NameError};
ghost use Rattle.http_header.specs.declared.value.HeaderValueError.{HeaderValueError as ValueError};
ghost use Rattle.http_uri.specs.Error.{IsOutOfMemory};
ghost use Rattle.sign_base.specs.Conversion.{IsOfKind};
ghost use Rattle.sign_base.specs.declared.error_kind.ErrorKind.TheVariants.{RequestInvalid};

use http_header::{HeaderNameError, HeaderValueError, ToStrError};
use http_uri::{InvalidUriParts, UriError};
use sign_base::{Error, ErrorKind, NoMemory};
use std::alloc::Global;

/// An error that is made of one of `http`'s. It fails where there is no memory for its text.
pub trait FromHttpError: Sized {
    fn from_http(alloc: Global, err: &http::Error) -> Result<Self, NoMemory<()>>;

    fn from_header_value(alloc: Global, err: &HeaderValueError) -> Result<Self, NoMemory<()>>;

    fn from_header_name(alloc: Global, err: &HeaderNameError) -> Result<Self, NoMemory<()>>;

    fn from_to_str(alloc: Global, err: &ToStrError) -> Result<Self, NoMemory<()>>;

    fn from_uri(alloc: Global, err: &UriError) -> Result<Self, NoMemory<()>>;

    fn from_uri_parts(alloc: Global, err: &InvalidUriParts) -> Result<Self, NoMemory<()>>;
}

impl FromHttpError for Error {
    fn from_http(alloc: Global, err: &http::Error) -> Result<Error, NoMemory<()>>
        ensures kind { IfOk result (IsOfKind RequestInvalid) }
        ensures memory { err.now ≡ HttpError.OutOfMemory → IsErr result }
    {
        match err {
            http::Error::OutOfMemory => Err(NoMemory { back: () }),
            _ => Error::from_display(alloc, ErrorKind::RequestInvalid, err),
        }
    }

    fn from_header_value(alloc: Global, err: &HeaderValueError) -> Result<Error, NoMemory<()>>
        ensures kind { IfOk result (IsOfKind RequestInvalid) }
        ensures memory { err.now ≡ ValueError.OutOfMemory → IsErr result }
    {
        match err {
            HeaderValueError::OutOfMemory => Err(NoMemory { back: () }),
            HeaderValueError::Invalid => Error::from_display(alloc, ErrorKind::RequestInvalid, err),
        }
    }

    fn from_header_name(alloc: Global, err: &HeaderNameError) -> Result<Error, NoMemory<()>>
        ensures kind { IfOk result (IsOfKind RequestInvalid) }
        ensures memory { err.now ≡ NameError.OutOfMemory → IsErr result }
    {
        match err {
            HeaderNameError::OutOfMemory => Err(NoMemory { back: () }),
            HeaderNameError::Invalid => Error::from_display(alloc, ErrorKind::RequestInvalid, err),
        }
    }

    fn from_to_str(alloc: Global, err: &ToStrError) -> Result<Error, NoMemory<()>>
        ensures { IfOk result (IsOfKind RequestInvalid) }
    {
        Error::from_display(alloc, ErrorKind::RequestInvalid, err)
    }

    fn from_uri(alloc: Global, err: &UriError) -> Result<Error, NoMemory<()>>
        ensures kind { IfOk result (IsOfKind RequestInvalid) }
        ensures memory { IsOutOfMemory err.now → IsErr result }
    {
        match err {
            UriError::OutOfMemory => Err(NoMemory { back: () }),
            UriError::Invalid(_) => Error::from_display(alloc, ErrorKind::RequestInvalid, err),
        }
    }

    fn from_uri_parts(alloc: Global, err: &InvalidUriParts) -> Result<Error, NoMemory<()>>
        ensures { IfOk result (IsOfKind RequestInvalid) }
    {
        Error::from_display(alloc, ErrorKind::RequestInvalid, err)
    }
}
