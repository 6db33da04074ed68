//! What the lines of `audit` say, and what a claim is about.
use crate::claimed_reply::ClaimedReply;
use signctl_format::{Item, ScriptEvent};

/// What a good line of `audit` says.
#[derive(Debug, Drop)]
pub enum AuditLine {
    /// It is the first line, and makes the input one of version 2.
    VersionTwo,
    /// It is a line of a script.
    Says(Item<ScriptEvent>),
    /// It claims how a line before it was answered.
    Claims(ClaimedReply),
}

/// What a claim is about.
#[derive(Debug, Drop)]
pub enum Subject {
    /// A cache that was made, with its number.
    Cache(u32),
    /// A handle that was made, with its number.
    Handle(u32),
    Event(ScriptEvent),
}

/// A cache, handle or event line that still wants its claim.
#[derive(Debug, Drop)]
pub struct Unclaimed {
    /// Its number, counted from 1.
    pub line: u64,
    pub subject: Subject,
}
