//! A gate over objects: providers, a service, the context that they work in, and a clock answer the calls of a
//! signer that threads share. A load and a work live in the call that began them, from their begin to their
//! answer: their thread sleeps between two polls, for so long as the gate is told to, or until it is stopped.
#![tactic(auto)]

mod cause;
mod gate;
mod gate_clock;
mod objects;
mod rule;
mod work_answer;

pub use cause::{UNANSWERED, kind_of, number_of};
pub use gate::ObjectGate;
pub use gate_clock::GateClock;
pub use objects::{GateObjects, Waits};
pub use rule::OperationEnd;
