//! Refusals, and what a poll answers to an error.
ghost use Rattle.std.specs.Prelude.{◌≡◌, ◌≢◌, ◌++◌};
ghost use Rattle.sign_base.specs.Refusal.{IsErrorOf};
ghost use Rattle.sign_base.specs.declared.error_kind.ErrorKind.TheVariants.{CredentialInvalid, OutOfMemory};

use credentials::Polled;
use sign_base::{Error, ErrorKind};
use std::alloc::Global;

/// The error with this cause and place, or that there is no memory for saying so.
pub fn refused(alloc: Global, cause: &str, place: &str) -> Error
    ensures { IsErrorOf CredentialInvalid (cause.now ++ place.now) result }
{
    match format!(in alloc; "{cause}{place}") {
        Ok(message) => Error::of(ErrorKind::CredentialInvalid, message),
        Err(_) => Error::out_of_memory(),
    }
}

/// What a poll answers that met this error.
pub fn failed<T>(error: Error) -> Polled<T>
    ensures memory { error.kind ≡ OutOfMemory → result ≡ Polled.OutOfMemory }
    ensures other { error.kind ≢ OutOfMemory → result ≡ Polled.Failed error }
{
    if error.kind() == ErrorKind::OutOfMemory {
        drop(error);
        return Polled::OutOfMemory;
    }
    Polled::Failed(error)
}
