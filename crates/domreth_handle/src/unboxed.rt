//! A box, taken apart into the address of its block and its allocator.
ghost use Rattle.std.specs.Prelude.{◌≡◌};
ghost use Rattle.std.specs.Box.Ownership.{box_owns};

use std::alloc::Allocator;
use std::marker::Model;

/// The address of a value, and the allocator that its block is given back to.
pub(crate) struct Unboxed<T, A: Allocator> {
    pub(crate) at: *mut T,
    pub(crate) alloc: A,
    pub(crate) ghost value: { T },
}

impl<T, A: Allocator> Model for Unboxed<T, A> {
    ghost also_owns = { λ u. box_owns (A.dealloc_token u.alloc) T.row u.at u.value };
}

/// Takes a box apart.
pub(crate) fn take_apart<T: Drop, A: Allocator>(whole: Box<T, A>) -> Unboxed<T, A>
    ensures { result.value ≡ whole.value }
{
    let (at, alloc) = Box::into_raw_with_allocator(whole);
    Unboxed { at, alloc }
}

/// Makes a box of its parts.
pub(crate) fn put_together<T: Drop, A: Allocator>(parts: Unboxed<T, A>) -> Box<T, A>
    ensures { result.value ≡ parts.value }
{
    let Unboxed { at, alloc } = parts;
    unsafe { Box::from_raw(alloc, at) }
}
