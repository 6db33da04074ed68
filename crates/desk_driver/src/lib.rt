//! What the drivers of desks share, a signer's and a granter's: what a call was begun with and where it is,
//! what its objects mean, the providers of a cache by number, the polls of a load, and the errors of
//! refusals. A driver makes a desk's events and reads its replies, and never looks into the desk.
#![tactic(auto)]

pub mod begun_call;
pub mod load_poll;
pub mod load_state;
pub mod provider_list;
pub mod refusal_error;

pub use begun_call::BegunCall;
pub use load_poll::poll_provider;
pub use load_state::{LoadAnswer, LoadState};
pub use provider_list::{loader_of, provider_at};
pub use refusal_error::{credential_refused, credential_refused_at, range_refused};
