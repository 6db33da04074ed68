//! A desk behind one address.
ghost use Rattle.std.specs.Prelude.{◌≡◌, Option, Some, None, option_map};
ghost use Rattle.domreth_desk.specs.declared.ticket_desk.TicketDesk.{TicketDesk};

use crate::unboxed::{Unboxed, put_together, take_apart};
use domreth_desk::TicketDesk;
use std::alloc::Global;
use std::marker::Model;
use std::mem;
use std::ptr::null_mut;

/// A desk, or none.
#[repr(C)]
pub struct DeskHandle {
    at: *mut u8,
    alloc: Global,
    pub ghost desk: { Option TicketDesk },
}

impl Model for DeskHandle {
    ghost use Rattle.domreth_handle.specs.Held.{held_at};

    ghost also_owns = { λ h. held_at h.alloc h.at h.desk };
}

impl DeskHandle {
    /// One that holds no desk.
    fn closed(alloc: Global) -> DeskHandle
        ensures { result.desk ≡ None }
    {
        DeskHandle {
            at: null_mut(),
            alloc,
        }
    }

    /// One that holds this desk.
    fn holding(parts: Unboxed<TicketDesk, Global>) -> DeskHandle
        ensures { result.desk ≡ Some parts.value }
    {
        let Unboxed { at, alloc } = parts;
        DeskHandle {
            at: at as *mut u8,
            alloc,
        }
    }

    /// The desk, if it holds one.
    fn into_parts(self) -> Option<Unboxed<TicketDesk, Global>>
        ensures { option_map (λ parts. parts.value) result ≡ self.desk }
    {
        let DeskHandle { at, alloc } = self;
        if at.is_null() {
            None
        } else {
            Some(Unboxed {
                at: at as *mut TicketDesk,
                alloc,
            })
        }
    }

    /// Takes the desk out, if it holds one.
    pub fn take(&mut self, alloc: Global) -> Option<Box<TicketDesk>>
        ensures taken { option_map (λ held. held.value) result ≡ self.old.desk }
        ensures closed { self.new.desk ≡ None }
    {
        match mem::replace(self, DeskHandle::closed(alloc)).into_parts() {
            Some(parts) => Some(put_together(parts)),
            None => None,
        }
    }

    /// Puts a desk in, and drops the one that it held.
    pub fn put(&mut self, desk: Box<TicketDesk>)
        ensures { self.new.desk ≡ Some desk.value }
    {
        *self = DeskHandle::holding(take_apart(desk));
    }
}

impl Drop for DeskHandle {
    fn drop(self) {
        if let Some(parts) = self.into_parts() {
            drop(put_together(parts));
        }
    }
}
