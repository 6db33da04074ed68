//! The answer of a poll.

use sign_base::Error;

/// What a poll of a load, of a work or of a read answers.
///
/// After `Ready` and after `Failed` the state that was polled is spent, and its caller polls it no
/// more. After `Pending` and after `OutOfMemory` it can be polled again.
#[derive(Debug, Drop)]
pub enum Polled<T> {
    /// The answer is still to come.
    Pending,
    /// The answer.
    Ready(T),
    /// There is no answer, for this reason.
    Failed(Error),
    /// The poll had no memory.
    OutOfMemory,
}
