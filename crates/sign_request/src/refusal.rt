//! The errors of this crate.
ghost use Rattle.std.specs.Prelude.{◌≡◌, ◌⊎◌, MatchResult};
ghost use Rattle.sign_base.specs.Error.{new_error};
ghost use Rattle.sign_base.specs.declared.error_kind.ErrorKind.TheVariants.{RequestInvalid};
ghost use Rattle.sign_request.specs.Refusal.{IsOutOfMemory};

use sign_base::{Error, NoMemory};
use std::alloc::Global;

/// The refusal of a request with this message, or out of memory for it.
pub(crate) fn refusal(alloc: Global, message: &str) -> Error
    ensures { IsOutOfMemory result ⊎ (result ≡ new_error RequestInvalid message.now) }
{
    or_out_of_memory(Error::request_invalid(alloc, message))
}

/// The error, or out of memory where there was none to make it.
pub(crate) fn or_out_of_memory(error: Result<Error, NoMemory<()>>) -> Error
    ensures { MatchResult error (λ e. result ≡ e) (λ _. IsOutOfMemory result) }
{
    match error {
        Ok(error) => error,
        Err(_) => Error::out_of_memory(),
    }
}
