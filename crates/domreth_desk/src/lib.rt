//! A desk for callers that are no Rattle crate. Its credentials are numbers of the caller's, with the
//! moments until which they are good, so no secret crosses; nor does a head. Who calls keeps both, asks the
//! providers and signs.
//!
//! A call of this crate is one event of `sign_desk`, and what it answers is the reply as plain numbers.
#![tactic(auto)]

mod crossing;
mod events;
mod reply_out;
mod setup;
mod ticket;
mod ticket_desk;

pub use crossing::{DeskReply, GivenMoment, GivenTicket};
pub use events::{accept, begin, cached, cancel, failed, found, missing, poll, reject};
pub use setup::{SetupError, add_cache, add_handle, add_rule};
pub use sign_base::CallId;
pub use sign_desk::Loader;
pub use ticket::{Margin, Ticket};
pub use ticket_desk::TicketDesk;
