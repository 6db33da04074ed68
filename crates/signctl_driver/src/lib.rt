//! One driver for all commands that read lines.
#![tactic(auto)]

pub mod command;
pub mod driver;
pub mod laws;
pub mod output;
mod service;
pub mod status;

pub use command::LineCommand;
pub use driver::drive;
pub use output::end_line;
pub use status::Status;
