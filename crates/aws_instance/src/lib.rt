//! The provider of what the metadata service of an instance hands out.
#![tactic(auto)]

mod asked_word;
mod instance;
mod instance_load;
mod metadata_service;
mod requests;
mod steps;

pub use instance::InstanceProvider;
pub use instance_load::InstanceLoad;
