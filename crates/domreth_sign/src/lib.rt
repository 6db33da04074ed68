//! Heads that are signed, links that are made, and links that are checked, for callers that are no Rattle
//! crate: what they have is bytes, and what they get is a text or the first cause why there is none.
//!
//! What is given (`given`) is read as what is asked for (`asked`, `asked_under`), and then asked of
//! `sigv4_core` and `sigv4_presign`.
#![tactic(auto)]

mod added_lines;
mod asked;
mod asked_under;
mod checking;
mod day_key;
pub mod given;
mod given_head;
pub mod laws;
mod presigning;
mod refusal;
mod signing;
mod signing_under;

pub use checking::check_link;
pub use day_key::derive_key;
pub use given::{GivenDerived, GivenField, GivenHead, GivenKey};
pub use presigning::make_link;
pub use refusal::Refusal;
pub use signing::sign_lines;
pub use signing_under::sign_lines_with;
