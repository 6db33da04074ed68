//! A signing pool: jobs come from many threads through one bounded queue to whichever worker is free, and
//! when the pool is finished its books are compared.
#![tactic(auto)]

mod finish;
mod pool;
mod queue;
mod refused;
mod rest;
mod room;
mod seat_books;
mod seats;
mod submit;
mod work;

pub use pool::{Pool, WorkerRefused};
pub use pool_books::{Answer, FinishCause, Finished, Outcome, PoolJob, Ticket, laws};
pub use refused::{FinishError, FinishRefused};
pub use seats::{Submitter, Worker};
pub use submit::{SubmitError, SubmitRefused};
pub use work::Work;
