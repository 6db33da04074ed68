//! Providers of what the endpoints of containers hand out.
#![tactic(auto)]

pub mod answer;
pub mod asking;
mod container;
mod container_request;
mod has_sender;
pub mod refused;

pub use container::{ContainerLoad, ContainerProvider};
pub use has_sender::HasSender;
