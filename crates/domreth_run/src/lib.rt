//! The commands of `signctl` over bytes in memory: what a program writes to a whole input, as a text.
#![tactic(auto)]

mod answer;
mod lent_bytes;
mod text_sink;

pub use answer::{Answer, NoAnswer};
pub use sign_request::HeaderSeeds;
