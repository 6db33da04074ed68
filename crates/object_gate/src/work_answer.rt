//! What a service answered to a poll.

use sign_base::{Error, Head};

/// What a service answered to a poll of its work.
#[derive(Drop)]
pub(crate) enum WorkAnswer<W> {
    Pending(W, Head),
    Signed(Head),
    Failed(Error),
    OutOfMemory,
}
