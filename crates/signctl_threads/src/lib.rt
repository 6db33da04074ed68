//! The commands of `signctl` that run threads: `pool` and `queue` serve made-up calls by workers at one
//! shared signer, each writes one line, and `run_threads` is the program on their command lines. Its calls
//! may wait for their threads, as no other command's do.
#![tactic(auto)]

mod books;
mod check;
mod desk;
mod end;
mod line;
pub mod line_laws;
mod pool;
mod program;
mod queue;
pub mod queue_laws;
mod refused;
mod rest;
mod run;
mod seats;
mod serve;
mod slots;
mod submit;
mod threads;
mod words;
mod work;

pub use end::PoolEnd;
pub use program::run_threads;
pub use refused::QueueRefused;
pub use run::run_pool;
pub use serve::serve_queue;
pub use words::{ThreadedCommand, is_for_threads, names_threaded};
