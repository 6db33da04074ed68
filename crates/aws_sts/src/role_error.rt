//! Why a role is not asked for.
ghost use Rattle.std.specs.Prelude.{◌≡◌, IfOk, IfErr, IsOk};
ghost use Rattle.std.specs.Option.{ok_or};
ghost use Rattle.aws_sts.specs.Refused.{error_of};

use aws_service::AwsError;
use sign_base::{Error, NoMemory};
use std::alloc::Global;

/// Why a role is not asked for: the first of these that holds.
#[derive(Clone, Copy, Debug, PartialEq, Eq)]
pub enum RoleError {
    /// A session lasts for 15 minutes to 12 hours, and this one was to last for another time.
    Duration,
    /// The request cannot be signed.
    Signing(AwsError),
    /// `http` does not accept the signed head.
    Head,
    /// An allocation failed.
    OutOfMemory,
}

impl RoleError {
    /// The refusal as an error: `RequestInvalid` with its cause, or `OutOfMemory`.
    ///
    /// Where there is no memory for the error, the refusal comes back.
    pub fn into_error(self, alloc: Global) -> Result<Error, NoMemory<RoleError>>
        ensures ok { IfOk result (λ e. e ≡ error_of self) }
        ensures back { IfErr result (λ e. e.back ≡ self) }
        ensures free { self ≡ RoleError.OutOfMemory → IsOk result }
    {
        let message = match self {
            RoleError::Duration => "a role's session lasts from 15 minutes to 12 hours",
            RoleError::Signing(why) => return self.or_back(why.into_error(alloc).ok()),
            RoleError::Head => "signed head not accepted",
            RoleError::OutOfMemory => return Ok(Error::out_of_memory()),
        };
        self.or_back(Error::request_invalid(alloc, message).ok())
    }

    /// The error, or the refusal where there is none.
    fn or_back(self, error: Option<Error>) -> Result<Error, NoMemory<RoleError>>
        ensures { result ≡ ok_or error (record { back = self }) }
    {
        error.ok_or(NoMemory { back: self })
    }
}

impl From<NoMemory<()>> for RoleError {
    ghost use Rattle.aws_sts.specs.declared.role_error.RoleError.TheVariants.{OutOfMemory};

    ghost from_gives = { λ _ why. why ≡ OutOfMemory };

    fn from(_: NoMemory<()>) -> RoleError {
        RoleError::OutOfMemory
    }
}

impl From<AwsError> for RoleError {
    ghost use Rattle.aws_sts.specs.RoleRequest.{signing_refusal};

    ghost from_gives = { λ why refusal. refusal ≡ signing_refusal why };

    fn from(why: AwsError) -> RoleError {
        match why {
            AwsError::OutOfMemory => RoleError::OutOfMemory,
            _ => RoleError::Signing(why),
        }
    }
}
