//! Why a call has no answer.
ghost use Rattle.std.specs.Prelude.{◌≡◌};
ghost use Rattle.domreth_sign.specs.Answers.{by_check};

use sign_base::NoMemory;
use sigv4_core::SigError;
use sigv4_presign::{Checked, PresignError};

/// Why a call has no answer: the first of these that holds.
#[derive(Clone, Copy, Debug)]
pub enum Refusal {
    /// The payload is neither `UNSIGNED-PAYLOAD` nor 64 digits from `0-9a-f`.
    Payload,
    /// No moment lies so many seconds after the start of 1970.
    Second,
    /// No version of HTTP has this number.
    Version,
    /// The access key is empty or has a byte other than 0x21 to 0x7e, or the secret is empty.
    Key,
    /// The region or the service is empty, or has a byte other than a to z, 0 to 9 and `-`.
    Scope,
    /// `http` does not accept the head.
    Head,
    /// The URI names no authority.
    Authority,
    /// The path has a `%`, and the service is not `s3`.
    Path,
    /// The moment lies before the year 0.
    Moment,
    /// The query has a key of a link already.
    Already,
    /// The link would be good for no second, or for more than seven days.
    Expires,
    /// `http` does not accept the link.
    Link,
    /// The query is not that of a link.
    Shape,
    /// The link is for another access key, scope or day.
    Credential,
    /// The link is not good yet.
    Early,
    /// The link is not good any more.
    Late,
    /// The signature is not that of this link.
    Signature,
    /// An allocation failed.
    OutOfMemory,
}

impl Refusal {
    /// Nothing where the link is valid, and else what was found.
    pub(crate) fn unless_valid(found: Checked) -> Result<(), Refusal>
        ensures { result ≡ by_check found }
    {
        match found {
            Checked::Head => Err(Refusal::Head),
            Checked::Authority => Err(Refusal::Authority),
            Checked::Path => Err(Refusal::Path),
            Checked::Shape => Err(Refusal::Shape),
            Checked::Credential => Err(Refusal::Credential),
            Checked::Early => Err(Refusal::Early),
            Checked::Late => Err(Refusal::Late),
            Checked::Signature => Err(Refusal::Signature),
            Checked::Valid => Ok(()),
        }
    }
}

impl From<NoMemory<()>> for Refusal {
    ghost use Rattle.domreth_sign.specs.declared.refusal.Refusal.TheVariants.{OutOfMemory};

    ghost from_gives = { λ _ refusal. refusal ≡ OutOfMemory };

    fn from(_: NoMemory<()>) -> Refusal {
        Refusal::OutOfMemory
    }
}

impl From<SigError> for Refusal {
    ghost use Rattle.domreth_sign.specs.Causes.{of_signing};

    ghost from_gives = { λ why refusal. refusal ≡ of_signing why };

    fn from(why: SigError) -> Refusal {
        match why {
            SigError::Head => Refusal::Head,
            SigError::Authority => Refusal::Authority,
            SigError::Path => Refusal::Path,
            SigError::Moment => Refusal::Moment,
            SigError::OutOfMemory => Refusal::OutOfMemory,
        }
    }
}

impl From<PresignError> for Refusal {
    ghost use Rattle.domreth_sign.specs.Causes.{of_presigning};

    ghost from_gives = { λ why refusal. refusal ≡ of_presigning why };

    fn from(why: PresignError) -> Refusal {
        match why {
            PresignError::Head => Refusal::Head,
            PresignError::Authority => Refusal::Authority,
            PresignError::Path => Refusal::Path,
            PresignError::Moment => Refusal::Moment,
            PresignError::Already => Refusal::Already,
            PresignError::Expires => Refusal::Expires,
            PresignError::Link => Refusal::Link,
            PresignError::OutOfMemory => Refusal::OutOfMemory,
        }
    }
}
