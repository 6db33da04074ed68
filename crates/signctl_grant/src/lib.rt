//! The command `grant`: what each line says, how a granter's replies are written, and a session over a desk.
//!
//! The grammar stands in specs/: `SpellsGrant` says which lines spell an item, `grant_item_of` decides it.
//! Lines that a script has too are read by `signctl_format`.
#![tactic(auto)]

pub mod grant_script_event;
pub mod grant_session;
pub mod laws;
mod print_grant;
mod read_grant;

pub use grant_script_event::GrantScriptEvent;
pub use grant_session::GrantSession;
pub use print_grant::push_grant_reply;
pub use read_grant::read_grant_line;
