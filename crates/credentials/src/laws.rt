//! What follows for a caller from what the calls promise. Each function does nothing: its contract is
//! the law.
ghost use Rattle.std.specs.Prelude.{◌≡◌, ◌∷◌, ◌↔◌, ℤ, false, List, All, Option, Some, None};
ghost use Rattle.credentials.specs.Chain.{ChainGives};
ghost use Rattle.credentials.specs.Law.{first_found, FindsOnly, FirstOrRest};
ghost use Rattle.credentials.specs.declared.polled.Polled.TheVariants.{Ready};

use crate::{ProvideCredential, SigningCredential};

/// A chain answers its first found credential, whatever its providers find after it, and that there
/// is none where none is found.
pub fn a_chain_answers_its_first_found<P: ProvideCredential>()
    ensures { (ctx : P.Ctx) (found : P → Option P.Credential) (providers : List P)
        (answer : Option P.Credential)
        → All (λ p. FindsOnly (λ a. P.gives p ctx a) (found p)) providers
        → ChainGives (λ p a. P.gives p ctx a) providers (Ready answer)
        → answer ≡ first_found found providers }
{}

/// With a provider put in front a chain answers what that one found, and where it found nothing what
/// the chain answered.
pub fn a_provider_in_front_goes_first<P: ProvideCredential>()
    ensures { (ctx : P.Ctx) (p : P) (providers : List P) (answer : Option P.Credential)
        → ChainGives (λ q a. P.gives q ctx a) (p ∷ providers) (Ready answer)
        ↔ FirstOrRest (λ q a. P.gives q ctx a) p providers answer }
{}

/// A credential that may be absent is valid as it says itself, and never where there is none.
pub fn an_absent_credential_is_never_valid<T: SigningCredential>()
    ensures some { (c : T) (now : ℤ) → ⟦<Option<T> as SigningCredential>⟧.valid (Some c) now ≡ T.valid c now }
    ensures some_at { (c : T) (moment now : ℤ)
        → ⟦<Option<T> as SigningCredential>⟧.valid_at (Some c) moment now ≡ T.valid_at c moment now }
    ensures none { (now : ℤ) → ⟦<Option<T> as SigningCredential>⟧.valid None now ≡ false }
    ensures none_at { (moment now : ℤ) → ⟦<Option<T> as SigningCredential>⟧.valid_at None moment now ≡ false }
{}
