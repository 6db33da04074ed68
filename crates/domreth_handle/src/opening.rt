//! A handle that is opened, and closed.
ghost use Rattle.std.specs.Prelude.{◌≡◌, None};
ghost use Rattle.domreth_handle.specs.Calls.{Opens};

use crate::DeskHandle;
use domreth_desk::TicketDesk;
use std::alloc::Global;

/// Opens a closed handle: it holds a desk with nothing on it.
pub fn open(alloc: Global, handle: &mut DeskHandle) -> u8
    ensures { Opens handle.old.desk result handle.new.desk }
{
    if let Some(desk) = handle.take(alloc) {
        handle.put(desk);
        return 45;
    }
    match Box::new(alloc, TicketDesk::new(alloc)) {
        Ok(desk) => {
            handle.put(desk);
            0
        }
        Err(_) => 6,
    }
}

/// Closes a handle, and frees its desk. A closed one stays closed.
pub fn close(alloc: Global, handle: &mut DeskHandle)
    ensures { handle.new.desk ≡ None }
{
    drop(handle.take(alloc));
}
