//! What one step of a call comes to: the poll goes on, or it is over.

use crate::grant::CallState;
use crate::refusal::GrantRefusal;

/// How a poll ends, with how far the call is where it is not over.
#[derive(Drop)]
pub(crate) enum StepEnd<K, L, W> {
    Pending(CallState<K, L, W>),
    Given(K),
    Refused(GrantRefusal),
    OutOfMemory(CallState<K, L, W>),
}

/// What a step came to.
#[derive(Drop)]
pub(crate) enum StepFlow<K, L, W> {
    /// The poll goes on from here.
    Continue(CallState<K, L, W>),
    Stop(StepEnd<K, L, W>),
}
