//! What is kept of a live call.
use std::time::Duration;

/// How far a live call is.
#[derive(Clone, Copy, Debug, PartialEq, Eq)]
pub enum Stage {
    Unpolled,
    Queued,
    Loading,
    Signing,
}

/// What is kept of a live call that was begun with this head, or with none.
#[derive(Debug, Drop)]
pub struct CallRecord<H> {
    pub stage: Stage,
    pub head: H,
    pub expires_in: Option<Duration>,
    pub answers: u32,
}
