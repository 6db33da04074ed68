//! `signctl script`: the signer, run on the events of its lines.
#![tactic(auto)]

mod session;

pub use session::{ScriptLine, Session};
