//! The view of a request head that a service signs, and the bridge between the heads of `http` and
//! plain ones.
#![tactic(auto)]

mod decode;
mod fields;
mod head_view;
mod header_seeds;
mod headers;
mod http_errors;
pub mod laws;
mod pair;
mod pair_form;
mod plain_head;
mod query;
mod query_view;
mod refusal;
mod request;
mod sort;
mod target;
mod text;

pub use head_view::{HeadView, ViewRefusal};
pub use header_seeds::HeaderSeeds;
pub use http_errors::FromHttpError;
pub use plain_head::{commit, commit_seeded, head_of, parts_of, parts_of_seeded};
pub use request::{SigningMethod, SigningRequest};
