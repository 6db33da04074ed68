//! A signer that threads share: a book or a volume behind one lock, and beside it the plan. Workers serve
//! lists of jobs at it. A worker whose call is behind others sleeps until a step passes a turn on.
#![tactic(auto)]

mod batch;
mod gate;
mod job;
mod job_server;
pub mod laws;
mod next_step;
mod pool;
mod rotating;
mod serve;
mod shared;
mod slots;
mod surroundings;
mod turn_lock;

pub use batch::Batch;
pub use gate::{Gate, GateLoad};
pub use job::{Job, Served};
pub use pool::{PoolRefused, Pooled, serve_all};
pub use rotating::{Rotated, RotatingSigner};
pub use serve::serve_jobs;
pub use shared::SharedSigner;
pub use signer_book::{
    Book, CloseError, CloseRefused, Entry, Pass, Receipt, RotateError, RotateRefused, Settled,
    Volume, VolumeError, VolumeRefused,
};
