//! Digests and keyed digests as text: what a service signer writes into a request.
#![tactic(auto)]

pub mod hash;
mod hmac;
pub mod laws;
mod sha256_key;

pub use sha256_key::Sha256Key;
