//! Heads with headers of these names, none of which has a value.
use crate::times::names::Name;
use fixtures::{plain_head, push_header};
use sign_base::Head;
use std::alloc::Global;
use std::process::Abort;

/// A head with these names in their order.
pub(crate) fn head_with(rt: &impl Abort, alloc: Global, names: &[Name]) -> Head {
    let mut head = plain_head(alloc, "GET", "https://e.x/").expect(rt, "memory");
    for name in names {
        push_header(alloc, &mut head, name, b"").expect(rt, "memory");
    }
    head
}
