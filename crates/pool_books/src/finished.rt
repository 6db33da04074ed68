//! A pool that is finished, and why its books do not balance.
use crate::answer::Answer;
use crate::job::PoolJob;
use sequential_signer::{DeadlineRule, SigningCredential};
use signer_book::Settled;

/// A pool whose signer is closed: the answers of each worker, the jobs that were left in the queue, and the
/// jobs of each submitter.
#[derive(Drop)]
pub struct Finished<K: SigningCredential, D: DeadlineRule<Credential = K>> {
    pub settled: Settled<K, D>,
    pub answers: Vec<Vec<Answer>>,
    pub left: Vec<PoolJob>,
    pub submitted: Vec<Vec<PoolJob>>,
}

/// Why the books of a pool do not balance: the first of these that holds.
#[derive(Clone, Copy, Debug, PartialEq, Eq)]
pub enum FinishCause {
    /// The jobs that were answered and left are not those that were submitted, each once and as it was.
    Jobs,
    /// Answer `at` of this worker is not what the journal says, or is `NotNow`. The first such answer.
    Untrue { worker: u32, at: u64 },
}
