//! Laws of the grammar of the lines of `grant`: each is the contract of a call that does nothing.
ghost use Rattle.std.specs.Prelude.{◌≡◌, ◌≢◌, ◌↔◌, ℕ, List, Some};
ghost use Rattle.signctl_format.specs.declared.item.Item.TheVariants.{Silent};
ghost use Rattle.signctl_grant.specs.GrantEvents.{GrantItem};
ghost use Rattle.signctl_grant.specs.GrantGrammar.{SpellsGrant};
ghost use Rattle.signctl_grant.specs.GrantReading.{grant_item_of};

/// A line reads as an item exactly where it spells it.
#[tactic(auto, using(crate::proofs::GrantGrammars::decided))]
pub fn grant_grammar_is_decided()
    ensures { (line : List ℕ) (item : GrantItem) → SpellsGrant line item ↔ (grant_item_of line ≡ Some item) }
{}

/// A line spells at most one item.
#[tactic(auto, using(crate::proofs::GrantGrammars::one_item))]
pub fn a_grant_line_spells_one_item()
    ensures { (line : List ℕ) (a b : GrantItem) → SpellsGrant line a → SpellsGrant line b → a ≡ b }
{}

/// An item has at most one spelling, but for the empty lines and those that begin with `#`.
#[tactic(auto, using(crate::proofs::GrantGrammars::one_spelling))]
pub fn a_grant_item_has_one_spelling()
    ensures { (item : GrantItem) (a b : List ℕ) → item ≢ Silent → SpellsGrant a item
        → SpellsGrant b item → a ≡ b }
{}
