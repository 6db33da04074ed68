//! The chain of all providers that AWS's tools ask by themselves.
#![tactic(auto)]

mod chain;
mod default_provider;

pub use chain::default_chain;
pub use default_provider::{DefaultLoad, DefaultProvider};
