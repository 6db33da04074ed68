//! The names of calls.

/// The number of a call, under the handle that it was begun with.
#[derive(Clone, Copy, Debug, PartialEq, Eq, PartialOrd, Ord, Hash)]
pub struct CallId {
    pub handle: u32,
    pub number: u64,
}
