//! The commands that answer each line by itself, whatever came before it: `hmac` digests bytes, `view` shows
//! what a service signs of a request head, `sigv4` signs heads with AWS Signature Version 4, makes presigned
//! links and checks them.
//!
//! Such a command is an item type, how a line reads as an item, and the answer to an item (`EachLine`). The
//! lines that say nothing are known here: each is counted, and is an item of no grammar. The grammars stand
//! in specs/: `SpellsHmac`, `SpellsView` and `SpellsSigv4` say which lines spell an item. No form of an item
//! of `sigv4`, and no line that is printed, shows a secret.
#![tactic(auto)]

mod bytes_word;
pub mod each_line;
mod form;
mod hmac_answer;
pub mod hmac_command;
pub mod hmac_item;
pub mod laws;
pub mod line_by_line;
mod read_hmac;
mod read_sigv4;
mod sigv4_answer;
pub mod sigv4_command;
pub mod sigv4_item;
pub mod sigv4_laws;
mod view_answer;
pub mod view_command;
mod view_names;
mod view_pairs;
mod view_query;
mod view_target;

pub use each_line::EachLine;
pub use hmac_command::HmacCommand;
pub use hmac_item::{HashCall, HmacItem, KeyedCall, UnkeyedCall};
pub use line_by_line::LineByLine;
pub use read_hmac::read_hmac_line;
pub use read_sigv4::read_sigv4_line;
pub use sigv4_command::Sigv4Command;
pub use sigv4_item::{Asked, Sigv4Item};
pub use view_command::ViewCommand;
