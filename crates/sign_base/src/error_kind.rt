//! What went wrong, in seven kinds that a caller can act on.
ghost use Rattle.std.specs.Prelude.{Some};
ghost use Rattle.sign_base.specs.ErrorKind.{kind_text};

use std::fmt;

/// The kind of an error.
#[derive(Clone, Copy, Debug, PartialEq, Eq)]
pub enum ErrorKind {
    /// The credentials were given and are not good: signed wrongly, expired or unknown.
    CredentialInvalid,
    /// The credentials are good and do not allow this.
    PermissionDenied,
    /// A setting is missing or makes no sense.
    ConfigInvalid,
    /// The request cannot be signed as it is.
    RequestInvalid,
    /// There were too many requests; a later one may pass.
    RateLimited,
    /// Anything else.
    Unexpected,
    /// There was no memory.
    OutOfMemory,
}

impl fmt::Display for ErrorKind {
    ghost output = { λ kind. Some (kind_text kind) };

    fn fmt<W: fmt::Write>(&self, f: &mut fmt::Formatter<W>) -> fmt::Result {
        f.write_str(match self {
            ErrorKind::CredentialInvalid => "invalid credentials",
            ErrorKind::PermissionDenied => "permission denied",
            ErrorKind::ConfigInvalid => "invalid configuration",
            ErrorKind::RequestInvalid => "invalid request",
            ErrorKind::RateLimited => "rate limited",
            ErrorKind::Unexpected => "unexpected error",
            ErrorKind::OutOfMemory => "out of memory",
        })
    }
}
