//! Laws of the grammar of `sigv4`: each is the contract of a call that does nothing.
ghost use Rattle.std.specs.Prelude.{◌≡◌, ◌↔◌, ℕ, List, Option, Some, Ok};
ghost use Rattle.signctl_by_line.specs.LineByLine.{SpellsLine};
ghost use Rattle.line_words.specs.Words.{line_of};
ghost use Rattle.signctl_by_line.specs.declared.sigv4_item.Sigv4Item.{Sigv4Item};
ghost use Rattle.signctl_by_line.specs.Sigv4Grammar.{SpellsSigv4, IsSigv4Item, sigv4_words};
ghost use Rattle.signctl_by_line.specs.Sigv4Answers.{sigv4_command};

/// A line of `sigv4` reads as what it says exactly where it says that: nothing, or an item that it spells.
pub fn sigv4_grammar_is_decided()
    ensures { (before : List (Option Sigv4Item)) (line : List ℕ) (said : Option Sigv4Item)
        → SpellsLine SpellsSigv4 line said ↔ (sigv4_command.read before line ≡ Ok said) }
{}

/// A line of `sigv4` says at most one thing.
#[tactic(auto, using(crate::proofs::Sigv4Grammars::one_item))]
pub fn a_sigv4_line_spells_one_item()
    ensures { (line : List ℕ) (a b : Option Sigv4Item)
        → SpellsLine SpellsSigv4 line a → SpellsLine SpellsSigv4 line b → a ≡ b }
{}

/// An item of `sigv4` has at most one spelling.
#[tactic(auto, using(crate::proofs::Sigv4Grammars::one_spelling))]
pub fn a_sigv4_item_has_one_spelling()
    ensures { (item : Sigv4Item) (a b : List ℕ) → SpellsSigv4 a item → SpellsSigv4 b item → a ≡ b }
{}

/// An item of `sigv4` whose parts a line may name has a spelling.
pub fn a_sigv4_item_has_a_spelling()
    ensures { (item : Sigv4Item) → IsSigv4Item item
        → SpellsLine SpellsSigv4 (line_of (sigv4_words item)) (Some item) }
{}
