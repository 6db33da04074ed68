//! Why a call has no signed head.
use sequential_signer::Why;

#[derive(Debug, Drop)]
pub enum Refusal {
    /// The desk refused the call.
    Refused(Why),
    /// As many calls are live as there may be. Nothing was begun.
    Busy,
    /// The call's turn, or its provider's answer, did not come in time. The call was cancelled.
    GivenUp,
    /// The signer was stopped. Nothing was begun, or the call had to wait and was cancelled.
    Stopped,
    /// An event of the call did not fit: there is no such handle, or all its numbers are used.
    NotNow,
    /// An allocation failed. A call that was begun was cancelled.
    OutOfMemory,
}
