//! The canonical texts of AWS Signature Version 4, of bytes: percent-encoding, paths, queries, headers and
//! canonical requests.
#![tactic(auto)]

mod canonical_request;
mod encoded_pairs;
mod encoding;
mod headers;
mod path;
mod query;

pub use canonical_request::{CanonicalTexts, canonical, canonical_texts};
pub use encoding::encode;
