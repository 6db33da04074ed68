//! Why a request is not signed.
ghost use Rattle.std.specs.Prelude.{◌≡◌, IfOk, IfErr, IsOk};
ghost use Rattle.aws_service.specs.Refused.{error_of};

use sign_base::{Error, NoMemory};
use sigv4_core::SigError;
use sigv4_presign::PresignError;
use std::alloc::Global;

/// Why a request is not signed: the first of these that holds.
#[derive(Clone, Copy, Debug, PartialEq, Eq)]
pub enum AwsError {
    /// The head says another `x-amz-content-sha256` than it is to be signed with, or one that is no
    /// payload's.
    Content,
    /// The query of a link to be has the token of a session already.
    Token,
    /// `http` does not accept the head.
    Head,
    /// The URI names no authority.
    Authority,
    /// The path has an escape, and the service is not `s3`.
    Path,
    /// The moment lies before the year 0.
    Moment,
    /// The query has a key of a link already.
    Already,
    /// The link would be good for no second, or for more than seven days.
    Expires,
    /// `http` does not accept the link.
    Link,
    /// The query has a `+`: a signature has it as a plus sign, and servers that read a query as a form have a
    /// space. Write `%2B` or `%20`.
    Plus,
    /// The link's authority has an upper-case letter, a user, or the port of its scheme, and agents send
    /// `host` without.
    Host,
    /// An allocation failed.
    OutOfMemory,
}

impl AwsError {
    /// The refusal as an error: `RequestInvalid` with its cause, or `OutOfMemory`.
    ///
    /// Where there is no memory for the error, the refusal comes back.
    pub fn into_error(self, alloc: Global) -> Result<Error, NoMemory<AwsError>>
        ensures ok { IfOk result (λ e. e ≡ error_of self) }
        ensures back { IfErr result (λ e. e.back ≡ self) }
        ensures free { self ≡ AwsError.OutOfMemory → IsOk result }
    {
        let message = match self {
            AwsError::Content => "x-amz-content-sha256 is not the payload's",
            AwsError::Token => "query has a session token already",
            AwsError::Head => "head not accepted",
            AwsError::Authority => "request without authority is invalid for signing",
            AwsError::Path => "path with escapes is not supported",
            AwsError::Moment => "moment out of range",
            AwsError::Already => "query is presigned already",
            AwsError::Expires => "expiry out of range",
            AwsError::Link => "link not accepted",
            AwsError::Plus => "plus sign in the query is ambiguous",
            AwsError::Host => "link is for another host than agents send",
            AwsError::OutOfMemory => return Ok(Error::out_of_memory()),
        };
        match Error::request_invalid(alloc, message) {
            Ok(error) => Ok(error),
            Err(_) => Err(NoMemory { back: self }),
        }
    }
}

impl From<NoMemory<()>> for AwsError {
    ghost use Rattle.aws_service.specs.declared.aws_error.AwsError.TheVariants.{OutOfMemory};

    ghost from_gives = { λ _ why. why ≡ OutOfMemory };

    fn from(_: NoMemory<()>) -> AwsError {
        AwsError::OutOfMemory
    }
}

impl From<SigError> for AwsError {
    ghost use Rattle.aws_service.specs.Refused.{sign_refusal};

    ghost from_gives = { λ why refusal. refusal ≡ sign_refusal why };

    fn from(why: SigError) -> AwsError {
        match why {
            SigError::Head => AwsError::Head,
            SigError::Authority => AwsError::Authority,
            SigError::Path => AwsError::Path,
            SigError::Moment => AwsError::Moment,
            SigError::OutOfMemory => AwsError::OutOfMemory,
        }
    }
}

impl From<PresignError> for AwsError {
    ghost use Rattle.aws_service.specs.Refused.{link_refusal};

    ghost from_gives = { λ why refusal. refusal ≡ link_refusal why };

    fn from(why: PresignError) -> AwsError {
        match why {
            PresignError::Head => AwsError::Head,
            PresignError::Authority => AwsError::Authority,
            PresignError::Path => AwsError::Path,
            PresignError::Moment => AwsError::Moment,
            PresignError::Already => AwsError::Already,
            PresignError::Expires => AwsError::Expires,
            PresignError::Link => AwsError::Link,
            PresignError::OutOfMemory => AwsError::OutOfMemory,
        }
    }
}
