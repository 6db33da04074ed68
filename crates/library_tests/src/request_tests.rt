//! What no clause of `sign_request` says: worked examples, printed texts, and that each call succeeds
//! with ample memory. Heads and their views by the lines of `signctl view` are rows of `command_rows`.
mod heads;
mod texts;
mod views;

use fixtures::{Headers, head_with_headers};
use http::request::Parts;
use sign_request::parts_of;
use std::alloc::Global;

/// A head of `http`. In its box it is one value to whoever proves where it is dropped, and not some fifty.
fn parts(alloc: Global, uri: &str, headers: Headers<'_>) -> Option<Box<Parts>> {
    let head = head_with_headers(alloc, "GET", uri, headers).ok()?;
    let parts = parts_of(alloc, &head).ok()?;
    Box::new(alloc, parts).ok()
}
