//! What a gate is made of.
use credentials::Providers;
use std::time::Duration;

/// The objects that answer, and for how long a signature is to serve: the operation of every call.
#[derive(Drop)]
pub struct GateObjects<P, S, C, X> {
    pub providers: Providers<P>,
    pub ctx: C,
    pub service: S,
    pub clock: X,
    pub expires_in: Option<Duration>,
}

/// How long a provider or a service that is pending is waited for: so many further polls, with a sleep before
/// each.
#[derive(Clone, Copy, Debug, PartialEq, Eq)]
pub struct Waits {
    pub polls: u64,
    pub pause: Duration,
}
