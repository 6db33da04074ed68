//! What a call was begun with.
use sign_base::CallId;
use std::time::Duration;

/// A call that a driver of a desk began, with this head or with none.
#[derive(Drop)]
pub struct BegunCall<H> {
    pub id: CallId,
    pub head: H,
    pub expires_in: Option<Duration>,
}
