//! A desk of credentials that somebody else keeps.
ghost use Rattle.std.specs.Prelude.{[]};
ghost use Rattle.sign_desk.specs.DeskState.{Represents};
ghost use Rattle.domreth_desk.specs.TicketPolicy.{ticket_policy};

use crate::{Margin, Ticket};
use sign_desk::Desk;
use std::alloc::Global;

/// A desk of such credentials.
#[derive(Drop)]
pub struct TicketDesk {
    pub desk: Desk<Ticket, Margin>,
}

impl TicketDesk {
    /// A desk with no caches, rules, handles or calls. It takes no memory.
    pub fn new(alloc: Global) -> TicketDesk
        ensures { Represents ticket_policy result.desk [] }
    {
        TicketDesk {
            desk: Desk::new(alloc),
        }
    }
}
