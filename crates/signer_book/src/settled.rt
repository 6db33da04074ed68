//! What closing a book gives: a journal that is exactly the receipts of the passes, or the first cause for
//! which it is not, with everything handed back.
use crate::book::Book;
use crate::pass::Pass;
use sequential_signer::{DeadlineRule, Entry, SigningCredential};
use sign_desk::Desk;

/// A journal that is the steps of these passes and no others.
#[derive(Drop)]
pub struct Settled<K: SigningCredential, D: DeadlineRule<Credential = K>> {
    pub desk: Desk<K, D>,
    pub journal: Vec<Entry<K>>,
    pub passes: Vec<Pass<K>>,
}

/// Why a book is not closed: the first of these that holds, in this order.
#[derive(Clone, Copy, Debug, PartialEq, Eq)]
pub enum CloseError {
    /// The setup of the book's desk is not that of the plan.
    Setup,
    /// The passes have so many receipts, and the journal so many entries.
    Absent { have: u128, want: u64 },
    /// Receipt `at` of pass `pass` is not the journal's entry at its place. The first such receipt.
    Differs { pass: u32, at: u64, place: u64 },
    /// Receipt `at` of pass `pass` has a place that is not above that of the receipt before it. The first
    /// such receipt.
    Falls { pass: u32, at: u64 },
    /// Receipts of two passes name one place. The lowest such place, and the two lowest passes that have
    /// it.
    Twice { place: u64, first: u32, second: u32 },
}

/// A book that was not closed: everything is handed back, so that the cause can be seen in it.
#[derive(Drop)]
pub struct CloseRefused<K: SigningCredential, D: DeadlineRule<Credential = K>> {
    pub book: Book<K, D>,
    pub plan: Desk<K, D>,
    pub passes: Vec<Pass<K>>,
    pub why: CloseError,
}
