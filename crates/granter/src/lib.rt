//! The granter on one thread: a granter's desk, and the providers, granting services and contexts that
//! answer it.
//!
//! A `Granter` makes credentials of a source credential. Its author brings the credential
//! (`SigningCredential`), providers that find a source (`ProvideCredential`), and a service that makes
//! another credential of it and says how long the source has to last (`GrantCredential`, `DeadlineRule`). A
//! handle is a cache with its providers, a context in which they work, and a granting service.
//!
//! # What is cached, and what is not
//!
//! A call uses the cached source where it is fresh (`is_valid`) and lasts to the call's deadline
//! (`is_valid_at` of `required_valid_until`). Otherwise it loads one, which has to last to that deadline.
//! Calls of the same cache do not wait for each other: where several find no source, each loads. What the
//! service makes is given to its caller, where it is valid at the moment of the service's answer, and is
//! never cached. An error of a provider or of the service is handed out, and the next call tries again.
//!
//! # Who polls
//!
//! No call blocks. `grant` begins one and hands out its state, and `poll` goes on with it as far as its
//! objects answer now. Whoever drives the calls polls one when its provider or its service may have
//! answered; `Granter::poll` has an example. `signer_tests` has a service of its own in `issuer.rt`, and
//! calls of it in `granter_calls.rt`.
#![tactic(auto)]

mod call_objects;
mod drive;
mod drive_call;
mod grant;
mod grant_poll;
mod granter;
mod granter_objects;
mod handle_room;
mod object_answer;
mod refusal;
mod step_call;
mod step_outcome;
mod step_reply;

pub use desk_parts::{AddError, AddRefused};
pub use grant::Grant;
pub use grant_desk::GrantDesk;
pub use grant_poll::GrantPoll;
pub use granter::Granter;
pub use refusal::GrantRefusal;
