//! The core of a credential broker: events in, one reply each. A source credential is loaded and cached as a
//! signer's, and a granter makes another from it.
#![tactic(auto)]

mod desk;
mod granted;
mod load;
mod poll;
mod replies;
mod state;
mod step;

pub use desk::GrantDesk;
pub use desk_parts::{AddError, AddRefused, HandleRecord, RunError};
pub use sequential_signer::{Answer, GrantEntry, GrantEvent, GrantReply, GrantWhy, Loader, Made};
