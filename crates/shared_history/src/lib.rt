//! A history that threads share: it exists in the proofs alone, takes no memory, and only grows. What threads
//! share at run time is the number of its entries.
#![tactic(auto)]

mod front;
mod rule;

pub use front::{Counter, Front, Opened};
pub use rule::Naming;
