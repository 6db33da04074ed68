//! Credentials of AWS as people have them: keys with the token of a session, where they are found, and the
//! clock by which a service dates what it signs with them.
#![tactic(auto)]

mod clocked_context;
mod environment;
mod has_variables;
mod key_texts;
pub mod laws;
mod poll_clock;
mod session_credential;
mod signing_clock;

pub use clocked_context::ClockedContext;
pub use environment::EnvironmentProvider;
pub use has_variables::HasVariables;
pub use key_texts::{KeyTexts, polled_session, session_in};
pub use poll_clock::PollClock;
pub use session_credential::SessionCredential;
pub use signing_clock::SigningClock;
