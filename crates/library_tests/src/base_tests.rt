//! What no clause of `sign_base`, `sign_io` and `sign_time` says: examples from outside, printed texts, and
//! that each call succeeds.
mod debug;
mod errors;
mod line_reader;
mod moments;
mod system;
