//! How many caches, rules and handles a desk may have.

/// So many rows of a table can be numbered by a `u32`, from 0 on.
pub const NUMBERED_ROWS: u64 = 4_294_967_296;

/// The most caches, rules and handles of a desk. It tells how many it has as a `u32`, so it has one less
/// than can be numbered.
pub const MOST_ROWS: u64 = 4_294_967_295;
