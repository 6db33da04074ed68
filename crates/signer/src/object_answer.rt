//! What the service of a signer answered to a poll.

use crate::sign::WorkState;
use sign_base::{Error, Head};

/// What a service answered to a poll of its work.
#[derive(Drop)]
pub(crate) enum WorkAnswer<W> {
    Pending(W, Head),
    OutOfMemory(WorkState<W>),
    Signed(Head),
    Failed(Error),
}
