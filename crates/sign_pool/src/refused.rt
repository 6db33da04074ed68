//! Why a pool is not finished, and what is handed back.
use crate::pool::Pool;
use crate::seats::{Submitter, Worker};
use pool_books::{Answer, FinishCause, Finished, PoolJob};
use sequential_signer::{DeadlineRule, SigningCredential};
use signer_book::CloseRefused;

/// Why nothing was finished.
#[derive(Clone, Copy, Debug, PartialEq, Eq)]
pub enum FinishError {
    /// So many seats were made, and not as many were handed in.
    Seats { submitters: u32, workers: u32 },
    OutOfMemory,
}

/// A pool that was not finished. Everything is handed back, or out.
#[derive(Drop)]
pub enum FinishRefused<K: SigningCredential, D: DeadlineRule<Credential = K>> {
    /// Nothing was done.
    Early {
        pool: Pool<K, D>,
        submitters: Vec<Submitter>,
        workers: Vec<Worker<K>>,
        why: FinishError,
    },
    /// The signer was not closed.
    Close {
        refused: CloseRefused<K, D>,
        answers: Vec<Vec<Answer>>,
        left: Vec<PoolJob>,
        submitted: Vec<Vec<PoolJob>>,
    },
    /// The signer is closed, and the books do not balance.
    Uncleared {
        finished: Finished<K, D>,
        why: FinishCause,
    },
}
