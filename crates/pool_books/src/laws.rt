//! The law of finished pools, over the definitions alone: the function's contract is the law.
ghost use Rattle.pool_books.specs.Laws.{DoneHeadsAreExpected};

/// Each head that a true answer of a cleared pool calls done is the sequential signer's at that point of the
/// legal journal, for the head and the duration that were submitted under the answer's ticket.
pub fn done_heads_are_expected<K, D>()
    ensures { DoneHeadsAreExpected K D }
{}
