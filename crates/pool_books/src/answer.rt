//! How a job ended.
use crate::job::Ticket;
use sign_base::CallId;

/// How a job's call ended.
#[derive(Clone, Copy, Debug, PartialEq, Eq)]
pub enum Outcome {
    Done,
    Refused,
    NotNow,
    /// The provider that was asked last was not ready in time, and the call was cancelled.
    GivenUp,
    OutOfMemory,
}

/// The answer to one job.
#[derive(Clone, Copy, Debug, PartialEq, Eq)]
pub struct Answer {
    pub ticket: Ticket,
    pub call: CallId,
    /// The place of the call's last receipt in the worker's pass. `None` where its begin found no memory.
    pub last: Option<u64>,
    pub outcome: Outcome,
}
