//! The signer on one thread: a desk, and the providers, services and contexts that answer it.
//!
//! A `Signer` signs request heads for one kind of service. Its author brings a credential
//! (`SigningCredential`), providers that find it (`ProvideCredential`), and a service that signs a head with
//! it and says how long it has to last (`SignRequest`, `DeadlineRule`). A handle is a cache with its
//! providers, a context in which they work, and a service; handles may share a cache.
//!
//! # What a request has to be
//!
//! The service sees the request as it goes out. Its URI has an authority, and its path and query are
//! percent-encoded already, once: what is data is encoded (`%2F` for a slash in a segment), what divides
//! stays as it is. The signer encodes and reorders nothing. A service of `sigv4_core` sorts and encodes in
//! what it signs, and leaves the URI as it was.
//!
//! The service works on a copy. Where the call is done, the request gets the copy's URI and headers, and
//! keeps its method, version and extensions; in every other case it stays as it was.
//!
//! # When a credential is loaded
//!
//! A call uses the cached credential where it is fresh (`is_valid`) and lasts to the call's deadline
//! (`is_valid_at` of `required_valid_until`). Otherwise it loads one, which has to last to that deadline;
//! calls of the same cache that come meanwhile wait, and use what was loaded where it serves them. An error
//! of a provider is handed out and not cached: the next call loads again. Nothing is retried within a call,
//! and an old credential is no answer to a failed load.
//!
//! `expires_in` goes to the service and to its deadline. What it means is theirs: a service may make a
//! presigned link of it, or ignore it.
//!
//! # Who polls
//!
//! No call blocks. `sign` begins one and hands out its state, and `poll` goes on with it as far as its
//! objects answer now. Whoever drives the calls polls one when its turn comes (`SignPoll::wake`) and when
//! its provider or its service may have answered; `Signer::poll` has an example. `signer_tests` signs with
//! a credential of its own, step by step, in `worked_service.rt`.
#![tactic(auto)]

mod call_objects;
mod drive;
mod drive_call;
mod handle_room;
mod object_answer;
mod refusal;
mod sign;
mod sign_poll;
mod signer;
mod signer_objects;
mod step_call;
mod step_outcome;
mod step_reply;
mod target;

pub use desk_parts::{AddError, AddRefused};
pub use refusal::Refusal;
pub use sign::Sign;
pub use sign_desk::Desk;
pub use sign_poll::{SignAnswer, SignPoll};
pub use signer::Signer;
