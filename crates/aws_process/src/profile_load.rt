//! A load of what a profile's process prints: how far it is.

use aws_profiles::SharedFile;

/// A load of what a profile's process prints: what it waits for.
#[derive(Drop)]
pub enum ProfileProcessLoad<R, P> {
    /// The profile's setting in this file: the read, where one is open.
    Reading {
        file: SharedFile,
        open_read: Option<R>,
    },
    /// The process.
    Running {
        run: P,
    },
}
