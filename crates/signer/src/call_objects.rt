//! The objects that a call works with, beside its service, which is a rule of the desk.

use credentials::Providers;
use sign_request::HeaderSeeds;
use std::alloc::Global;

/// The providers and the context of a call, and the keys of the header maps that are made for it.
#[derive(Drop)]
pub(crate) struct CallObjects<'a, P, C> {
    pub(crate) alloc: Global,
    pub(crate) providers: &'a Providers<P>,
    pub(crate) ctx: &'a C,
    pub(crate) keys: HeaderSeeds,
}
