//! The numbers by which a desk knows errors: it keeps no error itself.
ghost use Rattle.std.specs.Prelude.{◌≡◌, IfSome};
ghost use Rattle.object_gate.specs.Cause.{error_number};

use sign_base::ErrorKind;

/// The number of a service that did not answer for so long as it was waited for.
pub const UNANSWERED: u64 = 7;

/// The number of an error of this kind.
pub fn number_of(kind: ErrorKind) -> u64
    ensures { result ≡ error_number kind }
{
    match kind {
        ErrorKind::CredentialInvalid => 0,
        ErrorKind::PermissionDenied => 1,
        ErrorKind::ConfigInvalid => 2,
        ErrorKind::RequestInvalid => 3,
        ErrorKind::RateLimited => 4,
        ErrorKind::Unexpected => 5,
        ErrorKind::OutOfMemory => 6,
    }
}

/// The kind of error that has this number, or None where none has.
pub fn kind_of(number: u64) -> Option<ErrorKind>
    ensures has { IfSome result (λ kind. error_number kind ≡ number) }
    ensures all { (kind : ErrorKind) → error_number kind ≡ number → result ≡ Some kind }
{
    match number {
        0 => Some(ErrorKind::CredentialInvalid),
        1 => Some(ErrorKind::PermissionDenied),
        2 => Some(ErrorKind::ConfigInvalid),
        3 => Some(ErrorKind::RequestInvalid),
        4 => Some(ErrorKind::RateLimited),
        5 => Some(ErrorKind::Unexpected),
        6 => Some(ErrorKind::OutOfMemory),
        _ => None,
    }
}
