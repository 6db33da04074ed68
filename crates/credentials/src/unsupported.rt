//! What an object answers that is not there.
ghost use Rattle.credentials.specs.Unsupported.{FailsWith};

use crate::Polled;
use sign_base::Error;
use std::alloc::Global;

/// The poll of an object that is not configured: an `Unexpected` error of this message.
pub(crate) fn unsupported<T>(alloc: Global, message: &str) -> Polled<T>
    ensures { FailsWith message.now result }
{
    match Error::unexpected(alloc, message) {
        Ok(error) => Polled::Failed(error),
        Err(_) => Polled::OutOfMemory,
    }
}
