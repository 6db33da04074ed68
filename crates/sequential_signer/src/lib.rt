//! What a signer that serves one call at a time replies: what credentials and deadline rules mean to it,
//! its events, replies and entries, and over them, in specs/, the definitions that every contract above
//! cites.
#![tactic(auto)]

pub mod credential;
pub mod defaults;
pub mod event;
mod event_clone;
pub mod grant_event;
pub mod grant_laws;
mod option;
pub mod rule;
mod same;

pub use credential::SigningCredential;
pub use defaults::operation_end;
pub use event::{Answer, Entry, Event, Loader, Reply, Verdict, Why};
pub use grant_event::{GrantEntry, GrantEvent, GrantReply, GrantWhy, Made};
pub use rule::DeadlineRule;
pub use same::{same_entry, same_event, same_head, same_reply};
