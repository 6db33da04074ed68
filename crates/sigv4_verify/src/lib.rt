//! The check of request heads that are signed in their headers by AWS Signature Version 4.
#![tactic(auto)]

mod authorization;
mod checked_head;
mod checking;
pub mod laws;
pub mod round_trip;
mod signed_fields;
mod signed_form;

pub use checked_head::CheckedHead;
pub use checking::{verify_head, verify_head_seeded};
