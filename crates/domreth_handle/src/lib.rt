//! A desk of [`domreth_desk`] behind one address, for callers that are no Rattle crate.
//!
//! A call of this crate is one of `domreth_desk` on the desk that a handle holds, and answers a status: 0, or
//! why it did nothing. `bindings/c/domreth.h` has them all.
#![tactic(auto)]

mod desk_handle;
mod opening;
mod setting_up;
mod telling;
mod time;
mod unboxed;

pub use desk_handle::DeskHandle;
pub use domreth_desk::{CallId, DeskReply, GivenMoment, GivenTicket, Loader};
pub use opening::{close, open};
pub use setting_up::{add_cache, add_handle, add_rule};
pub use telling::{accept, begin, cached, cancel, failed, found, missing, poll, reject};
