//! What a line is, as the contract of a call that does nothing.
ghost use Rattle.std.specs.Prelude.{◌≡◌, ℕ, List};
ghost use Rattle.line_words.specs.Words.{words, line_of};

/// A line is its words, parted by single spaces.
#[tactic(auto, using(crate::proofs::WordList::line_of_words))]
pub fn a_line_is_its_words()
    ensures { (line : List ℕ) → line_of (words line) ≡ line }
{}
