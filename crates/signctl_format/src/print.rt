//! The lines that a script prints, each added at the end of a text without its newline.
//!
//! Out of memory comes only where the text has not the room for the line. Then what stood in the text
//! still stands in it, and a prefix of the line may stand after it.

ghost use Rattle.line_words.specs.Words.{spaced_words};
ghost use Rattle.line_words.specs.Printing.{Prints};
ghost use Rattle.signctl_format.specs.Lines.{call_words, credential_words, wake_words, why_words, reply_line};
ghost use Rattle.signctl_format.specs.Lines.{cache_line, handle_line, final_line};

use crate::ScriptCredential;
use line_words::ScriptVersion;
use line_words::head_text::push_head;
use line_words::moment_text::push_moment;
use line_words::text::{push, push_number, push_word};
use sequential_signer::{Reply, Why};
use sign_base::{CallId, NoMemory};

/// Adds the line of a reply.
pub fn push_reply(text: &mut Vec<u8>, reply: &Reply<ScriptCredential>) -> Result<(), NoMemory<()>>
    ensures { Prints text.old text.new result (reply_line reply.now) }
{
    match reply {
        Reply::Begun => push(text, b"begun"),
        Reply::Pending => push(text, b"pending"),
        Reply::NotNow => push(text, b"not now"),
        Reply::OutOfMemory => push(text, b"out of memory"),
        Reply::Ask { provider } => {
            push(text, b"ask")?;
            push_number(text, u64::from(*provider))
        }
        Reply::Sign { credential, wake } => {
            push(text, b"sign")?;
            push_number(text, credential.generation)?;
            push_wake(text, *wake)
        }
        Reply::Refused { why, wake } => {
            push(text, b"refused")?;
            push_why(text, why)?;
            push_wake(text, *wake)
        }
        Reply::Done { head } => {
            push(text, b"done")?;
            push_head(text, head)
        }
        Reply::Cancelled { wake } => {
            push(text, b"cancelled")?;
            push_wake(text, *wake)
        }
    }
}

/// Adds the line of a new cache, by its number.
pub fn push_cache(text: &mut Vec<u8>, number: u64) -> Result<(), NoMemory<()>>
    ensures { Prints text.old text.new result (cache_line number) }
{
    push(text, b"cache")?;
    push_number(text, number)
}

/// Adds the line of a new handle, by its number.
pub fn push_handle(text: &mut Vec<u8>, number: u64) -> Result<(), NoMemory<()>>
    ensures { Prints text.old text.new result (handle_line number) }
{
    push(text, b"handle")?;
    push_number(text, number)
}

/// Adds the line that says what a cache holds in the end, as this version spells moments.
pub fn push_final(
    text: &mut Vec<u8>,
    version: ScriptVersion,
    cache: u64,
    cached: Option<ScriptCredential>,
) -> Result<(), NoMemory<()>>
    ensures { Prints text.old text.new result (final_line version cache cached) }
{
    push(text, b"final")?;
    push_number(text, cache)?;
    match cached {
        None => push_word(text, b"empty"),
        Some(credential) => push_credential(text, version, credential),
    }
}

pub(crate) fn push_call(text: &mut Vec<u8>, call: CallId) -> Result<(), NoMemory<()>>
    ensures { Prints text.old text.new result (spaced_words (call_words call)) }
{
    push_number(text, u64::from(call.handle))?;
    push_number(text, call.number)
}

fn push_wake(text: &mut Vec<u8>, wake: Option<CallId>) -> Result<(), NoMemory<()>>
    ensures { Prints text.old text.new result (spaced_words (wake_words wake)) }
{
    match wake {
        None => Ok(()),
        Some(call) => {
            push_word(text, b"wake")?;
            push_call(text, call)
        }
    }
}

fn push_why(text: &mut Vec<u8>, why: &Why) -> Result<(), NoMemory<()>>
    ensures { Prints text.old text.new result (spaced_words (why_words why.now)) }
{
    match why {
        Why::Missing => push_word(text, b"missing"),
        Why::Short(_) => push_word(text, b"short"),
        Why::Range => push_word(text, b"range"),
        Why::Loader(error) => {
            push_word(text, b"loader")?;
            push_number(text, *error)
        }
        Why::Service(error) => {
            push_word(text, b"service")?;
            push_number(text, *error)
        }
    }
}

pub(crate) fn push_credential(
    text: &mut Vec<u8>,
    version: ScriptVersion,
    c: ScriptCredential,
) -> Result<(), NoMemory<()>>
    ensures { Prints text.old text.new result (spaced_words (credential_words version c)) }
{
    push_number(text, c.generation)?;
    push_moment(text, version, c.fresh)?;
    push_moment(text, version, c.expires)?;
    push_moment(text, version, c.required)
}
