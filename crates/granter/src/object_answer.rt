//! What the service of a granter answered to a poll.

use crate::grant::WorkState;
use sign_base::Error;

/// What a service answered to a poll of its work.
#[derive(Drop)]
pub(crate) enum WorkAnswer<K, W> {
    Pending(W),
    OutOfMemory(WorkState<K, W>),
    Made(K),
    Failed(Error),
}
