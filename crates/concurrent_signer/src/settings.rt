//! What a signer is run with.
use std::time::Duration;

/// How long a call is waited for.
#[derive(Clone, Copy, Debug, PartialEq, Eq)]
pub struct Patience {
    /// The longest wait for the turn of a call.
    pub turn: Duration,
    /// How often a provider is asked for its answer.
    pub asks: u64,
    /// The sleep between two of these.
    pub pause: Duration,
}

/// Who answers the calls, how many may be live at once, and how long they are waited for.
#[derive(Debug, Drop)]
pub struct Settings<G> {
    pub gate: G,
    pub limit: usize,
    pub patience: Patience,
}
