//! The texts of moments in UTC, and the moments that texts name, by the calendar and the readers of `jiff`.
#![tactic(auto)]

mod civil;
mod digits;
pub mod laws;
pub mod timestamp_read;
pub mod timestamp_text;

pub use timestamp_read::ReadMoment;
pub use timestamp_text::FormatMoment;
