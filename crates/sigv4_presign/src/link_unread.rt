//! Why nothing is read of a link.
ghost use Rattle.std.specs.Prelude.{◌≡◌};

use sign_base::NoMemory;
use sigv4_core::SigError;

/// Why a head's URI names no signer: the first of these that holds.
#[derive(Clone, Copy, Debug, PartialEq, Eq)]
pub enum LinkUnread {
    /// `http` does not accept the head.
    Head,
    /// The URI names no authority.
    Authority,
    /// The query is not that of a link.
    Shape,
    /// Its credential is no access key, the day of its date, a region, a service and `aws4_request`.
    Credential,
    /// An allocation failed.
    OutOfMemory,
}

impl From<NoMemory<()>> for LinkUnread {
    ghost use Rattle.sigv4_presign.specs.declared.link_unread.LinkUnread.TheVariants.{OutOfMemory};

    ghost from_gives = { λ _ why. why ≡ OutOfMemory };

    fn from(_: NoMemory<()>) -> LinkUnread {
        LinkUnread::OutOfMemory
    }
}

impl From<SigError> for LinkUnread {
    ghost use Rattle.sigv4_presign.specs.LinkClaims.{unread_as};

    ghost from_gives = { λ why unread. unread ≡ unread_as why };

    fn from(why: SigError) -> LinkUnread {
        match why {
            SigError::Authority => LinkUnread::Authority,
            SigError::OutOfMemory => LinkUnread::OutOfMemory,
            SigError::Head | SigError::Path | SigError::Moment => LinkUnread::Head,
        }
    }
}
