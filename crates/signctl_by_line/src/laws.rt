//! Laws of the grammars of lines: each is the contract of a call that does nothing.
ghost use Rattle.std.specs.Prelude.{◌≡◌, ◌↔◌, ℕ, List, Option, Some, Ok};
ghost use Rattle.sign_base.specs.declared.head.Head.{Head};
ghost use Rattle.signctl_by_line.specs.LineByLine.{SpellsLine};
ghost use Rattle.line_words.specs.Heads.{head_words};
ghost use Rattle.line_words.specs.Words.{line_of};
ghost use Rattle.signctl_by_line.specs.declared.hmac_item.HmacItem.{HmacItem};
ghost use Rattle.signctl_by_line.specs.HmacGrammar.{SpellsHmac, IsHmacItem, hmac_words};
ghost use Rattle.signctl_by_line.specs.HmacAnswers.{hmac_command};
ghost use Rattle.signctl_by_line.specs.ViewGrammar.{SpellsView, IsViewHead};
ghost use Rattle.signctl_by_line.specs.ViewAnswers.{view_command};

/// A line of `hmac` reads as what it says exactly where it says that: nothing, or an item that it spells.
pub fn hmac_grammar_is_decided()
    ensures { (before : List (Option HmacItem)) (line : List ℕ) (said : Option HmacItem)
        → SpellsLine SpellsHmac line said ↔ (hmac_command.read before line ≡ Ok said) }
{}

/// A line of `hmac` says at most one thing.
#[tactic(auto, using(crate::proofs::HmacGrammars::one_item))]
pub fn an_hmac_line_spells_one_item()
    ensures { (line : List ℕ) (a b : Option HmacItem)
        → SpellsLine SpellsHmac line a → SpellsLine SpellsHmac line b → a ≡ b }
{}

/// An item of `hmac` has at most one spelling.
#[tactic(auto, using(crate::proofs::HmacGrammars::one_spelling))]
pub fn an_hmac_item_has_one_spelling()
    ensures { (item : HmacItem) (a b : List ℕ) → SpellsHmac a item → SpellsHmac b item → a ≡ b }
{}

/// An item of `hmac` whose parts a line may name has a spelling.
pub fn an_hmac_item_has_a_spelling()
    ensures { (item : HmacItem) → IsHmacItem item
        → SpellsLine SpellsHmac (line_of (hmac_words item)) (Some item) }
{}

/// A line of `view` reads as what it says exactly where it says that: nothing, or a head that it spells.
pub fn view_grammar_is_decided()
    ensures { (before : List (Option Head)) (line : List ℕ) (said : Option Head)
        → SpellsLine SpellsView line said ↔ (view_command.read before line ≡ Ok said) }
{}

/// A line of `view` says at most one thing.
#[tactic(auto, using(crate::proofs::ViewGrammars::one_item))]
pub fn a_view_line_spells_one_item()
    ensures { (line : List ℕ) (a b : Option Head)
        → SpellsLine SpellsView line a → SpellsLine SpellsView line b → a ≡ b }
{}

/// A head has at most one spelling as a line of `view`.
#[tactic(auto, using(crate::proofs::ViewGrammars::one_spelling))]
pub fn a_view_item_has_one_spelling()
    ensures { (head : Head) (a b : List ℕ) → SpellsView a head → SpellsView b head → a ≡ b }
{}

/// A head that a line of `view` may name has a spelling.
pub fn a_view_item_has_a_spelling()
    ensures { (head : Head) → IsViewHead head
        → SpellsLine SpellsView (line_of (head_words head)) (Some head) }
{}
