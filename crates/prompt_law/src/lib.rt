//! The law of any pool of workers whose gate answers at once: each of its calls is signed, with one load in
//! all. It is of definitions alone, and the function's contract is the law.
#![tactic(auto)]

ghost use Rattle.sequential_signer.specs.Policy.{policy_of};
ghost use Rattle.prompt_law.specs.Laws.{PromptCallsAreSigned};

use sequential_signer::{DeadlineRule, SigningCredential};
use signer_shared::Gate;

/// Workers that have handles of their own, all on one cache with one provider, sign all their jobs where
/// the gate answers at once and none of them ran out of memory: no event misfits, no call is refused or
/// given up, and the provider is asked once, or not at all where there is no job. So it is in every order
/// in which the workers' steps may come.
pub fn prompt_calls_are_signed<K: SigningCredential, D: DeadlineRule<Credential = K>, G: Gate<K>>()
    ensures { (gate : G) → PromptCallsAreSigned (policy_of K.valid K.valid_at D.deadline) (G.meaning gate) }
{}
