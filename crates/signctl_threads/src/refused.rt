//! Why a queue was not finished.
use sign_pool::{FinishCause, Finished};
use signctl_format::{ScriptCredential, ScriptRule};
use signer_shared::CloseRefused;

/// Why a queue was not finished.
#[derive(Drop)]
pub enum QueueRefused {
    /// An allocation failed: in a thread, in a job, or before or behind all of them.
    OutOfMemory,
    /// The signer was not closed.
    Close(CloseRefused<ScriptCredential, ScriptRule>),
    /// The signer is closed, and the books do not balance.
    Uncleared {
        finished: Finished<ScriptCredential, ScriptRule>,
        why: FinishCause,
    },
}
