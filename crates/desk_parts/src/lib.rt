//! The parts of which desks are made: the tables of a setup and of live calls, the look at a cache, the check
//! of what was found, and the queues in which a signer's calls wait. A signer's desk and a granter's differ
//! in what they keep of each cache beside its credential, in what a call is begun with, and in their replies.
#![tactic(auto)]

pub mod adding;
pub mod call_record;
mod changes;
mod check;
pub mod limits;
pub mod lookup;
pub mod queue;
mod queues;
mod reads;
pub mod run_error;
mod setup;
pub mod tables;

pub use adding::{AddError, AddRefused};
pub use call_record::{CallRecord, Stage};
pub use limits::{MOST_ROWS, NUMBERED_ROWS};
pub use lookup::Lookup;
pub use queue::CallQueue;
pub use run_error::RunError;
pub use tables::{HandleRecord, LiveCallView, Tables};
