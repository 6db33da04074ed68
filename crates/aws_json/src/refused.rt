//! Refusals: a cause, and the place of the document.
ghost use Rattle.std.specs.Prelude.{◌≡◌, ◌⊎◌, ◌++◌, []};
ghost use Rattle.sign_base.specs.Error.{new_error};
ghost use Rattle.sign_base.specs.Refusal.{IsErrorOf};
ghost use Rattle.sign_base.specs.declared.error_kind.ErrorKind.TheVariants.{CredentialInvalid};

use sign_base::{Error, ErrorKind};
use std::alloc::Global;

/// The error that the document is no good, or that there is no memory for saying so.
pub(crate) fn refused(alloc: Global, cause: &str, place: &str) -> Error
    ensures { IsErrorOf CredentialInvalid (cause.now ++ place.now) result }
{
    match format!(in alloc; "{cause}{place}") {
        Ok(message) => Error::of(ErrorKind::CredentialInvalid, message),
        Err(_) => Error::out_of_memory(),
    }
}

/// The same for a member.
pub(crate) fn member_refused(alloc: Global, name: &str, cause: &str, place: &str) -> Error
    ensures { IsErrorOf CredentialInvalid (name.now ++ (cause.now ++ place.now)) result }
{
    match format!(in alloc; "{name}{cause}{place}") {
        Ok(message) => Error::of(ErrorKind::CredentialInvalid, message),
        Err(_) => Error::out_of_memory(),
    }
}
