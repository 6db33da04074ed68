//! The head of a live call, where it lies.
ghost use Rattle.std.specs.Prelude.{◌≡◌, IfOk};

use sign_base::{Head, NoMemory};
use std::alloc::Global;
use std::marker::Model;

/// A head in a place of its own: what is kept of a call is moved as calls come and go, and the head is not.
#[derive(Drop)]
pub(crate) struct BoxedHead {
    head: Box<Head>,
}

impl Model for BoxedHead {
    ghost use Rattle.sign_base.specs.declared.head.Head.{Head};

    ghost Value = { Head };

    ghost view = { λ kept. kept.head.value };
}

impl BoxedHead {
    pub fn new(alloc: Global, head: Head) -> Result<BoxedHead, NoMemory<()>>
        ensures { IfOk result (λ kept. kept ≡ head) }
    {
        match Box::new(alloc, head) {
            Ok(head) => Ok(BoxedHead { head }),
            Err(_) => Err(NoMemory { back: () }),
        }
    }

    pub fn as_head(&self) -> &Head
        ensures { result.now ≡ self.now }
    {
        &self.head
    }

    pub fn into_head(self) -> Head
        ensures { result ≡ self }
    {
        Box::into_inner(self.head)
    }
}
