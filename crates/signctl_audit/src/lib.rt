//! The command `audit`: lines of a script with the answers that somebody claims, and whether these are
//! a run of the signer.
//!
//! The grammar of claims stands in specs/: `SpellsReply` says which texts spell a claim, `claim_of`
//! decides it. Lines of a script are read by `signctl_format`.
#![tactic(auto)]

pub mod audit_error;
pub mod audit_line;
mod audit_session;
mod claim_check;
pub mod claimed_reply;
mod closing;
pub mod laws;
mod log_stage;
mod read_claim;
mod session_reading;
mod taking;

pub use audit_error::{AuditError, Due};
pub use audit_line::{AuditLine, Subject, Unclaimed};
pub use audit_session::AuditSession;
pub use claimed_reply::{ClaimedReply, ClaimedWhy};
pub use read_claim::{claim_text, read_claimed_reply};
