//! Laws of the grammar of script lines: each is the contract of a call that does nothing.
ghost use Rattle.std.specs.Prelude.{◌≡◌, ◌≢◌, ◌↔◌, ℕ, List, Some};
ghost use Rattle.line_words.specs.declared.moment.ScriptVersion.{ScriptVersion};
ghost use Rattle.line_words.specs.Words.{line_of};
ghost use Rattle.signctl_format.specs.declared.item.Item.TheVariants.{Silent};
ghost use Rattle.signctl_format.specs.ScriptEvents.{ScriptItem};
ghost use Rattle.signctl_format.specs.Grammar.{Spells, IsLineItem, item_words};
ghost use Rattle.signctl_format.specs.Reading.{item_of};

/// A line reads as an item exactly where it spells it.
#[tactic(auto, using(crate::proofs::Grammars::decided))]
pub fn grammar_is_decided()
    ensures { (version : ScriptVersion) (line : List ℕ) (item : ScriptItem)
        → Spells version line item ↔ (item_of version line ≡ Some item) }
{}

/// A line spells at most one item.
#[tactic(auto, using(crate::proofs::Grammars::one_item))]
pub fn a_line_spells_one_item()
    ensures { (version : ScriptVersion) (line : List ℕ) (a b : ScriptItem) → Spells version line a
        → Spells version line b → a ≡ b }
{}

/// An item has at most one spelling, but for the empty lines and those that begin with `#`.
#[tactic(auto, using(crate::proofs::Grammars::one_spelling))]
pub fn an_item_has_one_spelling()
    ensures { (version : ScriptVersion) (item : ScriptItem) (a b : List ℕ) → item ≢ Silent
        → Spells version a item → Spells version b item → a ≡ b }
{}

/// An item whose parts a line may name has a spelling.
#[tactic(auto, using(crate::proofs::Spellings::spelled))]
pub fn an_item_has_a_spelling()
    ensures { (version : ScriptVersion) (item : ScriptItem) → IsLineItem version item
        → Spells version (line_of (item_words version item)) item }
{}
