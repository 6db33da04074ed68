//! What happens to the calls of a granter, and what it replies. A granter makes a credential from another,
//! the source, which is loaded and cached as a signer's. Debug texts show a credential as its type does.
use crate::event::Answer;
use sign_base::{CallId, Timestamp};
use std::time::Duration;

/// A granter's answer: the credential that it made from the source, or its error.
#[derive(Debug, Drop)]
pub enum Made<K> {
    Made(K),
    Failed(u64),
}

/// What happens to a call.
#[derive(Debug, Drop)]
pub enum GrantEvent<K> {
    /// The call is begun. `expires_in` is how long the operation may take that the source has to outlast.
    Begin {
        call: CallId,
        expires_in: Option<Duration>,
    },
    /// The caller asks for the next step.
    Poll {
        call: CallId,
        now: Timestamp,
    },
    /// The provider that was asked last answers, at this moment.
    Provided {
        call: CallId,
        now: Timestamp,
        answer: Answer<K>,
    },
    /// The granter answers, at this moment.
    Granted {
        call: CallId,
        now: Timestamp,
        answer: Made<K>,
    },
    /// The caller gives the call up.
    Cancel {
        call: CallId,
    },
}

/// Why a call was refused.
#[derive(Debug, Drop)]
pub enum GrantWhy {
    /// No provider has a source.
    Missing,
    /// The loaded source does not last to this deadline.
    Short(Timestamp),
    /// The deadline is out of the range of moments.
    Range,
    /// The single provider failed.
    Loader(u64),
    /// The granter failed.
    Service(u64),
    /// The granted credential is not valid at this moment, which is that of the granter's answer.
    Stale(Timestamp),
}

/// The reply to an event.
#[derive(Debug, Drop)]
pub enum GrantReply<K> {
    Begun,
    /// An answer for the call is awaited.
    Pending,
    /// The event does not fit the call; nothing changed.
    NotNow,
    /// An allocation failed; nothing changed.
    OutOfMemory,
    /// The provider with this number is to be asked; a single one has the number 0.
    Ask { provider: u32 },
    /// The granter is to make a credential from this source.
    Grant { source: K },
    Refused { why: GrantWhy },
    /// The credential that the granter made.
    Given { credential: K },
    Cancelled,
}

/// An event and its reply. A granter's transcript is a list of these, the oldest first.
#[derive(Debug, Drop)]
pub struct GrantEntry<K> {
    pub event: GrantEvent<K>,
    pub reply: GrantReply<K>,
}
