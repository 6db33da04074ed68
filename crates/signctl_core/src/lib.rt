//! The commands of `signctl` by their words, and the whole program, as functions over sources and sinks:
//! what a program's `main` calls.
#![tactic(auto)]

pub mod commands;
pub mod program;

pub use commands::run;
pub use program::run_program;
pub use sign_request::HeaderSeeds;
pub use signctl_driver::Status;
