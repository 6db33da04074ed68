//! Providers of the tests, which say what they answer.
ghost use Rattle.std.specs.Prelude.{⊤};

use credentials::{Polled, ProvideCredential};
use sign_base::{Error, NoMemory};
use std::alloc::Global;
use std::cell::Cell;

/// How many loads were begun.
#[derive(Drop)]
pub(crate) struct Asked {
    pub(crate) count: Cell<u32>,
}

impl Asked {
    pub(crate) fn new() -> Asked {
        Asked {
            count: Cell::new(0),
        }
    }
}

/// A provider that says what it answers. `Later` is pending once.
#[derive(Clone, Copy)]
pub(crate) enum Says {
    Found(u64),
    Missing,
    Failed,
    Later(u64),
}

impl ProvideCredential for Says {
    type Credential = u64;

    type Ctx = Asked;

    type Load = bool;

    ghost started = { λ says ctx load. ⊤ };

    ghost ready = { λ says ctx load. ⊥ };

    ghost gives = { λ says ctx answer. ⊤ };

    fn provide_credential(&self, _alloc: Global, ctx: &Asked) -> Result<bool, NoMemory<()>> {
        ctx.count.set(ctx.count.get().saturating_add(1));
        Ok(false)
    }

    fn poll_load(&self, alloc: Global, _ctx: &Asked, load: &mut bool) -> Polled<Option<u64>> {
        match self {
            Says::Found(key) => Polled::Ready(Some(*key)),
            Says::Missing => Polled::Ready(None),
            Says::Failed => match Error::unexpected(alloc, "no") {
                Ok(error) => Polled::Failed(error),
                Err(_) => Polled::OutOfMemory,
            },
            Says::Later(key) => {
                if *load {
                    return Polled::Ready(Some(*key));
                }
                *load = true;
                Polled::Pending
            }
        }
    }
}
