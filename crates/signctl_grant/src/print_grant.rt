//! The lines in which a granter's replies are written, each added at the end of a text without its newline.
//!
//! Out of memory comes only where the text has not the room for the line. Then what stood in the text
//! still stands in it, and a prefix of the line may stand after it.

ghost use Rattle.line_words.specs.Words.{spaced_words};
ghost use Rattle.line_words.specs.Printing.{Prints};
ghost use Rattle.signctl_grant.specs.GrantLines.{grant_why_words, grant_reply_line};

use line_words::text::{push, push_number, push_word};
use sequential_signer::{GrantReply, GrantWhy};
use sign_base::NoMemory;
use signctl_format::ScriptCredential;

/// Adds the line of a reply.
pub fn push_grant_reply(
    text: &mut Vec<u8>,
    reply: &GrantReply<ScriptCredential>,
) -> Result<(), NoMemory<()>>
    ensures { Prints text.old text.new result (grant_reply_line reply.now) }
{
    match reply {
        GrantReply::Begun => push(text, b"begun"),
        GrantReply::Pending => push(text, b"pending"),
        GrantReply::NotNow => push(text, b"not now"),
        GrantReply::OutOfMemory => push(text, b"out of memory"),
        GrantReply::Ask { provider } => {
            push(text, b"ask")?;
            push_number(text, u64::from(*provider))
        }
        GrantReply::Grant { source } => {
            push(text, b"grant")?;
            push_number(text, source.generation)
        }
        GrantReply::Refused { why } => {
            push(text, b"refused")?;
            push_why(text, why)
        }
        GrantReply::Given { credential } => {
            push(text, b"given")?;
            push_number(text, credential.generation)
        }
        GrantReply::Cancelled => push(text, b"cancelled"),
    }
}

fn push_why(text: &mut Vec<u8>, why: &GrantWhy) -> Result<(), NoMemory<()>>
    ensures { Prints text.old text.new result (spaced_words (grant_why_words why.now)) }
{
    match why {
        GrantWhy::Missing => push_word(text, b"missing"),
        GrantWhy::Short(_) => push_word(text, b"short"),
        GrantWhy::Range => push_word(text, b"range"),
        GrantWhy::Loader(error) => {
            push_word(text, b"loader")?;
            push_number(text, *error)
        }
        GrantWhy::Service(error) => {
            push_word(text, b"service")?;
            push_number(text, *error)
        }
        GrantWhy::Stale(_) => push_word(text, b"stale"),
    }
}
