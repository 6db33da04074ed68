//! What a pool of workers serves: the setup of its desk, the lists of its jobs, and the gate that answers
//! for its provider, its service and its clock.
#![tactic(auto)]

mod desk;
mod gate;
mod head;
pub mod laws;
mod work;

pub use desk::pool_desk;
pub use gate::PoolGate;
pub use head::pool_head;
pub use work::pool_work;
