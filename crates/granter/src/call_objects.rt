//! The objects that a call works with, beside its granting service, which is a rule of the desk.

use credentials::Providers;
use std::alloc::Global;

/// The providers and the context of a call.
#[derive(Drop)]
pub(crate) struct CallObjects<'a, P, C> {
    pub(crate) alloc: Global,
    pub(crate) providers: &'a Providers<P>,
    pub(crate) ctx: &'a C,
}
