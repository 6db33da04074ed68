//! How a run of a command that threads serve ends.
ghost use Rattle.std.specs.Prelude.{◌≡◌};
ghost use Rattle.signctl_threads.specs.Ends.{status_of};

use sign_pool::{FinishCause, Finished};
use signctl_driver::Status;
use signctl_format::{ScriptCredential, ScriptRule};
use signer_shared::{CloseRefused, Settled};

/// How a run ended.
#[derive(Drop)]
pub enum PoolEnd {
    /// A pool's line was written, of this settled journal.
    Done(Settled<ScriptCredential, ScriptRule>),
    /// A queue's line was written, of these books.
    Finished(Finished<ScriptCredential, ScriptRule>),
    /// The signer was not closed with the workers' passes. Nothing was written.
    Disagreed(CloseRefused<ScriptCredential, ScriptRule>),
    /// The books of a queue do not balance. Nothing was written.
    Uncleared {
        finished: Finished<ScriptCredential, ScriptRule>,
        why: FinishCause,
    },
    /// The run ended early: `Usage` and `OutOfMemory` wrote nothing, `WriteFault` a prefix of the line.
    Ended(Status),
}

impl PoolEnd {
    /// The status of the end. That of `Disagreed` and `Uncleared` is `Refused`.
    pub fn status(&self) -> Status
        ensures { result ≡ status_of self.now }
    {
        match self {
            PoolEnd::Done(_) | PoolEnd::Finished(_) => Status::Done,
            PoolEnd::Disagreed(_) | PoolEnd::Uncleared { .. } => Status::Refused,
            PoolEnd::Ended(status) => *status,
        }
    }
}
