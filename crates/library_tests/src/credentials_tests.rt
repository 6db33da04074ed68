//! What no clause of `credentials` says: worked examples, printed texts, and that each call succeeds
//! with ample memory.
mod chains;
mod contexts;
mod environments;
mod objects;
mod providers;
