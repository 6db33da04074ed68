//! Why a line of `audit` is bad, and the text of each cause.
ghost use Rattle.std.specs.Prelude.{◌≡◌, ◌++◌, OnOk};
ghost use Rattle.line_words.specs.Words.{spaced_words};
ghost use Rattle.signctl_audit.specs.AuditCauses.{behind_words, due_line, audit_error_text};

use line_words::text::{push, push_number, push_word};
use sequential_signer::Reply;
use sign_base::{CallId, NoMemory};
use signctl_format::{LineError, ScriptCredential, push_cache, push_handle, push_reply};

/// The answer that is due to a line.
#[derive(Debug, Drop)]
pub enum Due {
    /// A cache of this number was made.
    Cache(u32),
    /// A handle of this number was made.
    Handle(u32),
    /// The expected reply to an event.
    Reply(Reply<ScriptCredential>),
}

/// Why a line is bad that is not too long.
#[derive(Debug, Drop)]
pub enum AuditError {
    /// As a line of a script.
    Line(LineError),
    /// It is a claim, and no line before it wants one.
    OutOfPlace,
    /// The line of this number wanted its claim, and another line came, or the end.
    NoClaim { line: u64 },
    /// It claims another answer than the one that is due. Of a call that has to wait, `behind` is the
    /// first of those that it waits for.
    Differs { due: Due, behind: Option<CallId> },
}

/// Adds the text of a cause.
pub(crate) fn push_audit_error(text: &mut Vec<u8>, cause: &AuditError) -> Result<(), NoMemory<()>>
    ensures { OnOk result (text.new.items ≡ text.old.items ++ audit_error_text cause.now) }
{
    match cause {
        AuditError::Line(why) => push(text, why.as_str().as_bytes()),
        AuditError::OutOfPlace => push(text, b"claim out of place"),
        AuditError::NoClaim { .. } => push(text, b"no claim"),
        AuditError::Differs { due, behind } => {
            push(text, b"due ")?;
            push_due(text, due)?;
            push_behind(text, *behind)
        }
    }
}

/// Adds the line of the answer that is due.
pub(crate) fn push_due(text: &mut Vec<u8>, due: &Due) -> Result<(), NoMemory<()>>
    ensures { OnOk result (text.new.items ≡ text.old.items ++ due_line due.now) }
{
    match due {
        Due::Cache(number) => push_cache(text, u64::from(*number)),
        Due::Handle(number) => push_handle(text, u64::from(*number)),
        Due::Reply(reply) => push_reply(text, reply),
    }
}

fn push_behind(text: &mut Vec<u8>, behind: Option<CallId>) -> Result<(), NoMemory<()>>
    ensures { OnOk result (text.new.items ≡ text.old.items ++ spaced_words (behind_words behind)) }
{
    match behind {
        None => Ok(()),
        Some(call) => {
            push_word(text, b"behind")?;
            push_number(text, u64::from(call.handle))?;
            push_number(text, call.number)
        }
    }
}
