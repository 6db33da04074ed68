//! Worked scripts: each function says, as its contract, which replies are expected to the events of a short
//! script, and which caches they leave, or which events may run out of memory. The check computes them from
//! the definitions.
#![tactic(auto, unfolding(crate::specs::OnScripts::on_scripts))]

pub mod bounds;
pub mod caches;
pub mod chains;
pub mod grant_loads;
pub mod grant_out_of_memory;
pub mod grants;
pub mod one_call;
pub mod out_of_memory;
pub mod waiters;
