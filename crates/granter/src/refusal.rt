//! Why a granter refused a call.
ghost use Rattle.std.specs.Prelude.{◌≡◌, IfOk, IfErr};
ghost use Rattle.granter.specs.RefusalError.{error_of};

use desk_driver::{credential_refused, credential_refused_at, range_refused};
use sign_base::{Error, NoMemory, Timestamp};
use std::alloc::Global;

const MISSING: &str = "failed to load source credential";

const SHORT: &str = "refreshed source credential expires before the granting deadline";

const STALE: &str = "granted credential is not currently usable";

/// Why a call was refused.
#[derive(Debug, Drop)]
pub enum GrantRefusal {
    /// No provider has a source.
    Missing,
    /// The loaded source does not last to this deadline.
    Short(Timestamp),
    /// The deadline is out of the range of moments.
    Range,
    /// The single provider failed.
    Loader(Error),
    /// The granting service failed.
    Service(Error),
    /// The granted credential is not valid at this moment, which is that of the poll.
    Stale(Timestamp),
}

impl GrantRefusal {
    /// The refusal as an error, which names this type of credentials. The error of a provider or of a
    /// service is handed out as it is.
    ///
    /// Where there is no memory for the error, the refusal comes back.
    pub fn into_error(self, alloc: Global, name: &str) -> Result<Error, NoMemory<GrantRefusal>>
        ensures ok { IfOk result (λ e. e ≡ error_of name.now self) }
        ensures back { IfErr result (λ refused. refused.back ≡ self) }
    {
        match self {
            GrantRefusal::Missing => match credential_refused(alloc, MISSING, name) {
                Ok(e) => Ok(e),
                Err(_) => Err(NoMemory {
                    back: GrantRefusal::Missing,
                }),
            },
            GrantRefusal::Short(deadline) => {
                match credential_refused_at(alloc, SHORT, name, "required_valid_until", deadline) {
                    Ok(e) => Ok(e),
                    Err(_) => Err(NoMemory {
                        back: GrantRefusal::Short(deadline),
                    }),
                }
            }
            GrantRefusal::Range => match range_refused(alloc, name) {
                Ok(e) => Ok(e),
                Err(_) => Err(NoMemory {
                    back: GrantRefusal::Range,
                }),
            },
            GrantRefusal::Loader(e) => Ok(e),
            GrantRefusal::Service(e) => Ok(e),
            GrantRefusal::Stale(moment) => {
                match credential_refused_at(alloc, STALE, name, "validated_at", moment) {
                    Ok(e) => Ok(e),
                    Err(_) => Err(NoMemory {
                        back: GrantRefusal::Stale(moment),
                    }),
                }
            }
        }
    }
}
