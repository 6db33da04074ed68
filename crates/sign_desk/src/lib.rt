//! The core of the request signer: events in, one reply each.
#![tactic(auto)]

mod boxed_head;
mod desk;
mod idle;
pub mod laws;
mod load;
mod poll;
mod preview;
mod replies;
mod same_setup;
mod state;
mod step;
mod step_owned;

pub use desk::Desk;
pub use desk_parts::{AddError, AddRefused, HandleRecord, RunError, Stage};
pub use idle::IdleDesk;
pub use sequential_signer::{
    Answer, Entry, Event, Loader, Reply, Verdict, Why, same_head, same_reply,
};
