//! An auditor: it is given events, one after another, with the replies that somebody claims for them, and
//! says of each whether it is what a signer replies that serves one call at a time.
#![tactic(auto)]

mod allocates;
mod audit;
mod blockers;
mod claim;
mod counts;
mod order_change;
mod wait_order;
mod wait_orders;

pub use audit::Audit;
pub use claim::Claim;
pub use counts::Counts;
