//! The providers of what a process prints: one whose command is given, and one of a profile's process.
#![tactic(auto)]

mod command_line;
mod has_commands;
mod output;
mod process;
mod profile_load;
mod profile_process;
mod profile_steps;
mod words;

pub use has_commands::HasCommands;
pub use process::{ProcessLoad, ProcessProvider};
pub use profile_load::ProfileProcessLoad;
pub use profile_process::ProfileProcessProvider;
pub use words::{SplitFault, split_words};
