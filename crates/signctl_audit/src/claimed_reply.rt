//! What a claim line says: how the line before it is claimed to have been answered.
use sign_base::{CallId, Head};

/// Why a call is claimed to have been refused, as a line shows it: without the deadline that a
/// credential did not last to.
#[derive(Clone, Copy, Debug, PartialEq, Eq)]
pub enum ClaimedWhy {
    Missing,
    Short,
    Range,
    Loader(u64),
    Service(u64),
}

/// What the line of an answer shows: of a credential its number alone.
#[derive(Debug, Drop)]
pub enum ClaimedReply {
    /// A new cache has this number.
    Cache(u32),
    /// A new handle has this number.
    Handle(u32),
    Begun,
    Pending,
    NotNow,
    /// An allocation of the signer failed.
    OutOfMemory,
    /// The provider with this number is to be asked.
    Ask(u32),
    Sign {
        generation: u64,
        wake: Option<CallId>,
    },
    Refused {
        why: ClaimedWhy,
        wake: Option<CallId>,
    },
    Done(Head),
    Cancelled {
        wake: Option<CallId>,
    },
}
