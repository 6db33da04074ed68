//! Why a signer refused a call.
ghost use Rattle.std.specs.Prelude.{◌≡◌, IfOk, IfErr, IsOk};
ghost use Rattle.signer.specs.RefusalError.{error_of, HasError};

use desk_driver::{credential_refused, credential_refused_at, range_refused};
use sign_base::{Error, NoMemory, Timestamp};
use std::alloc::Global;

const MISSING: &str = "failed to load signing credential";

const SHORT: &str = "refreshed signing credential expires before the requested operation deadline";

/// Why a call was refused.
#[derive(Debug, Drop)]
pub enum Refusal {
    /// No provider has a credential.
    Missing,
    /// The loaded credential does not last to this deadline.
    Short(Timestamp),
    /// The deadline is out of the range of moments.
    Range,
    /// The single provider failed.
    Loader(Error),
    /// The service failed, or `http` does not accept the URI or a header of what it signed.
    Service(Error),
}

impl Refusal {
    /// The refusal as an error, which names this type of credentials. The error of a provider or of a
    /// service is handed out as it is.
    ///
    /// Where there is no memory for the error, the refusal comes back. An error that is there takes none.
    pub fn into_error(self, alloc: Global, name: &str) -> Result<Error, NoMemory<Refusal>>
        ensures ok { IfOk result (λ e. e ≡ error_of name.now self) }
        ensures back { IfErr result (λ refused. refused.back ≡ self) }
        ensures free { HasError self → IsOk result }
    {
        match self {
            Refusal::Missing => match credential_refused(alloc, MISSING, name) {
                Ok(e) => Ok(e),
                Err(_) => Err(NoMemory {
                    back: Refusal::Missing,
                }),
            },
            Refusal::Short(deadline) => {
                match credential_refused_at(alloc, SHORT, name, "required_valid_until", deadline) {
                    Ok(e) => Ok(e),
                    Err(_) => Err(NoMemory {
                        back: Refusal::Short(deadline),
                    }),
                }
            }
            Refusal::Range => match range_refused(alloc, name) {
                Ok(e) => Ok(e),
                Err(_) => Err(NoMemory {
                    back: Refusal::Range,
                }),
            },
            Refusal::Loader(e) => Ok(e),
            Refusal::Service(e) => Ok(e),
        }
    }
}
