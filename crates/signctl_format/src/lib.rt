//! The lines of `signctl script`: what each line says, and how replies are written.
//!
//! The grammar stands in specs/: `Spells` says which lines spell an item, `item_of` decides it.
#![tactic(auto)]

pub mod credential;
pub mod item;
pub mod laws;
pub mod print;
pub mod read;

pub use credential::{ScriptCredential, ScriptRule};
pub use item::{Item, ScriptEvent, setup_error};
pub use line_words::{LineError, ReadError, ScriptVersion};
pub use print::{push_cache, push_final, push_handle, push_reply};
pub use read::{is_version_line, read_line};
