//! How often each kind of reply came.
ghost use Rattle.std.specs.Prelude.{◌≡◌, ◌++◌, ◌∷◌, [], OnOk, decimal};
ghost use Rattle.sign_io.specs.Faults.{one_more};
ghost use Rattle.line_words.specs.Words.{spaced_words, with_newline};
ghost use Rattle.signctl_load.specs.Load.{counts_of, counts_line};
ghost use Rattle.signctl_load.specs.LoadState.{with_reply};

use line_words::text::{push, push_number, push_word};
use sequential_signer::Reply;
use sign_base::NoMemory;
use signctl_format::ScriptCredential;

/// Numbers of replies. One that does not fit 64 bits stays at the greatest number.
#[derive(Clone, Copy, Debug, PartialEq, Eq)]
pub(crate) struct Counts {
    pub(crate) begun: u64,
    pub(crate) pending: u64,
    pub(crate) ask: u64,
    pub(crate) sign: u64,
    pub(crate) done: u64,
    pub(crate) refused: u64,
    pub(crate) cancelled: u64,
    pub(crate) not_now: u64,
}

impl Counts {
    /// The counts of no replies.
    #[tactic(auto, unfolding(crate::specs::Load::counts_of))]
    pub(crate) fn new() -> Counts
        ensures { result ≡ counts_of [] }
    {
        Counts {
            begun: 0,
            pending: 0,
            ask: 0,
            sign: 0,
            done: 0,
            refused: 0,
            cancelled: 0,
            not_now: 0,
        }
    }

    /// The counts with one more reply. Those that say that an allocation failed are not counted.
    pub(crate) fn with_reply(self, reply: &Reply<ScriptCredential>) -> Counts
        ensures { result ≡ with_reply reply.now self }
    {
        match reply {
            Reply::Begun => Counts {
                begun: one_more(self.begun),
                ..self
            },
            Reply::Pending => Counts {
                pending: one_more(self.pending),
                ..self
            },
            Reply::NotNow => Counts {
                not_now: one_more(self.not_now),
                ..self
            },
            Reply::OutOfMemory => self,
            Reply::Ask { .. } => Counts {
                ask: one_more(self.ask),
                ..self
            },
            Reply::Sign { .. } => Counts {
                sign: one_more(self.sign),
                ..self
            },
            Reply::Refused { .. } => Counts {
                refused: one_more(self.refused),
                ..self
            },
            Reply::Done { .. } => Counts {
                done: one_more(self.done),
                ..self
            },
            Reply::Cancelled { .. } => Counts {
                cancelled: one_more(self.cancelled),
                ..self
            },
        }
    }
}

fn one_more(count: u64) -> u64
    ensures { result ≡ one_more count }
{
    count.saturating_add(1)
}

/// Adds the line of counts.
pub(crate) fn push_counts(text: &mut Vec<u8>, counts: &Counts) -> Result<(), NoMemory<()>>
    ensures { OnOk result (text.new.items ≡ text.old.items ++ with_newline (counts_line counts.now)) }
{
    push(text, b"begun")?;
    push_number(text, counts.begun)?;
    push_count(text, b"pending", counts.pending)?;
    push_count(text, b"ask", counts.ask)?;
    push_count(text, b"sign", counts.sign)?;
    push_count(text, b"done", counts.done)?;
    push_count(text, b"refused", counts.refused)?;
    push_count(text, b"cancelled", counts.cancelled)?;
    push_count(text, b"not-now", counts.not_now)?;
    push(text, b"\n")?;
    Ok(())
}

fn push_count(text: &mut Vec<u8>, kind: &[u8], count: u64) -> Result<(), NoMemory<()>>
    ensures { OnOk result (text.new.items ≡ text.old.items ++ spaced_words (kind.now ∷ decimal count ∷ [])) }
{
    push_word(text, kind)?;
    push_number(text, count)
}
