//! A signer for many threads that runs for long. Any thread makes a call and is blocked by it alone: one lock
//! is held for one event of the desk at a time, never while a provider or a service works, and a call that
//! has to wait sleeps. Memory is taken by live calls alone. What is proved of a call is said by one history
//! of all threads, which exists in the proofs alone.
#![tactic(auto)]

mod history;
mod locked_desk;
mod refusal;
mod settings;
mod signer;

pub use history::{History, SetUp};
pub use refusal::Refusal;
pub use settings::{Patience, Settings};
pub use shared_history::Opened;
pub use signer::ConcurrentSigner;
