//! The files in which AWS's tools keep the keys of profiles, and the provider that finds one there.
#![tactic(auto)]

mod aws_provider;
mod fault;
mod file_poll;
mod has_files;
mod line;
mod process_line;
mod profile_load;
mod profile_provider;
mod session;
mod setting;
mod settings;
mod shared_file;
mod texts;

pub use aws_provider::{AwsLoad, AwsProvider, aws_chain};
pub use fault::FileFault;
pub use has_files::HasFiles;
pub use process_line::poll_process_line;
pub use profile_load::ProfileLoad;
pub use profile_provider::ProfileProvider;
pub use session::{profile_process, profile_session};
pub use setting::{Setting, value_of};
pub use settings::read_settings;
pub use shared_file::SharedFile;
