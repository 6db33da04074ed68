//! Request signing under one name: what authors of services, providers and brokers call, from the crates
//! where it stands. It has nothing of its own.
//!
//! # What it is built of
//!
//! - A **credential** (`SigningCredential`) says whether it can be used, now and at a later moment.
//! - **Providers** (`ProvideCredential`) find it. A call begins a load, polls go on with it, and a poll
//!   never waits. `ProvideCredentialChain` asks one provider after another.
//! - A **service** (`SignRequest`) signs a request with it, and says until when it has to last
//!   (`DeadlineRule`). `SigningRequest` is a request as a service reads it.
//! - A **context** (`Context`) has what these work in: files, requests, variables and commands.
//! - A **signer** (`Signer`) drives them on one thread. It caches credentials, and loads each cache's anew
//!   by one call at a time. A **granter** (`Granter`) does the same for a broker (`GrantCredential`), which
//!   makes another credential from the cached one.
//!
//! # What callers can rely on
//!
//! - A cached credential is used only where it is valid now and lasts to the operation's deadline. A loaded
//!   one has to last to the deadline. A load that fails is not cached: the next call that waits loads anew.
//! - The service signs a copy of the request's head. Where the call is done, the request has the URI and
//!   the headers of that copy, both, and its own method and version; else it is as it was.
//! - Where an allocation failed, the answer says so and hands back what was passed: call again.
//!
//! # What callers have to do
//!
//! - Hand in a URI that is as it is to be sent, each part of it percent-encoded once, with an authority.
//! - Poll a call until it is over, or cancel it: calls behind one that was only dropped wait for ever.
//! - Keep secrets out of debug texts and errors of types of their own. Those here show none.
//!
//! # An example
//!
//! A token that is there from the start, and goes into a header, in outline. The test crate `signer_tests`
//! has whole signers.
//!
//! ```
//! #[derive(Clone, Copy)]
//! struct Token {
//!     text: &'static str,
//! }
//!
//! impl SigningCredential for Token {
//!     const NAME: &'static str = "Token";
//!
//!     ghost valid = { λ token now. true };
//!
//!     ghost valid_at = { λ token moment now. true };
//!
//!     fn is_valid(&self, _now: Timestamp) -> bool {
//!         true
//!     }
//!
//!     fn is_valid_at(&self, _ts: Timestamp, _now: Timestamp) -> bool {
//!         true
//!     }
//!
//!     fn try_clone(&self, _alloc: Global) -> Result<Token, NoMemory<()>> {
//!         Ok(*self)
//!     }
//! }
//!
//! // `OneToken` provides it, and `Bearer` signs by it.
//! fn is_signed(alloc: Global, req: &mut Parts, now: Timestamp) -> Option<bool> {
//!     let providers = Providers::Single(OneToken(Token { text: "let me in" }));
//!     let mut signer = Signer::new(alloc, (), providers, Bearer).ok()?;
//!     let sign = signer.sign(0, req, None).ok()?;
//!     let SignPoll { answer, .. } = signer.poll(sign, req, now);
//!     Some(matches!(answer, SignAnswer::Done))
//! }
//! ```
#![tactic(auto)]

pub use credentials::{
    ChainLoad, CommandExecute, CommandOutput, Context, Env, FileRead, GrantCredential, HttpSend,
    NoopCommandExecute, NoopEnv, NoopFileRead, NoopHttpSend, OsEnv, Polled, ProvideCredential,
    ProvideCredentialChain, Providers, SignRequest, StaticEnv,
};
pub use granter::{Grant, GrantPoll, GrantRefusal, Granter};
pub use hmac_core::hash;
pub use sequential_signer::{DeadlineRule, SigningCredential, operation_end};
pub use sign_base::{
    CallId, Clock, Error, ErrorKind, Field, Fields, Head, ListClock, NoMemory, Octets, Redact,
    SystemClock, Timestamp, Version,
};
pub use sign_request::{
    FromHttpError, HeadView, HeaderSeeds, SigningMethod, SigningRequest, ViewRefusal, commit,
    commit_seeded, head_of, parts_of, parts_of_seeded,
};
pub use sign_time::{FormatMoment, ReadMoment};
pub use signer::{AddError, AddRefused, Refusal, Sign, SignAnswer, SignPoll, Signer};
