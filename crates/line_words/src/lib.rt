//! The words of plain lines: numbers, moments, durations, escaped bytes and request heads, read from words
//! and written as words. What whole lines say is each command's own.
//!
//! Readers take what stands after the word that was read last, and printers add to the end of a text.
#![tactic(auto)]

mod byte_class;
pub mod escape;
pub mod head;
pub mod head_text;
pub mod laws;
pub mod moment;
pub mod moment_text;
pub mod read_error;
pub mod text;
pub mod word;

pub use moment::ScriptVersion;
pub use read_error::{LineError, NotUnderstood, ReadError};
