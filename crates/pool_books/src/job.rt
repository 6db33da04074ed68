//! The jobs of a pool.
use sign_base::Head;
use std::time::Duration;

/// Whose job it is, and how many this submitter had submitted before it.
#[derive(Clone, Copy, Debug, PartialEq, Eq, Hash)]
pub struct Ticket {
    pub submitter: u32,
    pub number: u64,
}

/// A head to be signed. `expires_in` is how long the operation may take.
#[derive(Debug, Drop)]
pub struct PoolJob {
    pub ticket: Ticket,
    pub head: Head,
    pub expires_in: Option<Duration>,
}
