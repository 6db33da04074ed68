//! A grant of a role that was begun.

use crate::RoleError;
use bytes::Bytes;
use http::Response;

/// A grant that was begun, over the sends of an HTTP object. It holds secrets once it is answered, and has no
/// debug form.
#[derive(Drop)]
pub enum RoleWork<S> {
    /// Nothing is sent, for this cause, which the poll tells.
    Refused(RoleError),
    /// The request is sent.
    Sent(S),
    /// The answer has come, and is kept while there is no memory to read it.
    Answered(Response<Bytes>),
}
