//! The line of a pool: how many calls there were, how many were signed, and how often the provider was asked.
ghost use Rattle.std.specs.Prelude.{◌≡◌, ◌++◌, ◌∷◌, [], IfOk, OnOk, decimal};
ghost use Rattle.sequential_signer.specs.Replies.{is_ask, is_done};
ghost use Rattle.line_words.specs.Words.{spaced_words};
ghost use Rattle.pool_jobs.specs.Run.{signed, loads};
ghost use Rattle.signctl_threads.specs.Line.{pool_line};

use line_words::text::{push, push_number, push_word};
use sequential_signer::{Entry, Reply};
use sign_base::NoMemory;
use signctl_format::ScriptCredential;
use std::alloc::Global;

/// The line of so many jobs with this journal.
pub(crate) fn pool_line(
    alloc: Global,
    jobs: u64,
    journal: &[Entry<ScriptCredential>],
) -> Result<Vec<u8>, NoMemory<()>>
    ensures { IfOk result (λ line. line.items ≡ pool_line jobs journal.now) }
{
    let mut line = Vec::new(alloc);
    push(&mut line, b"calls")?;
    push_number(&mut line, jobs)?;
    push_count(&mut line, b"signed", signed(journal))?;
    push_count(&mut line, b"loads", loads(journal))?;
    push_word(&mut line, b"settled")?;
    push(&mut line, b"\n")?;
    Ok(line)
}

/// A kind of things, and how many there are.
pub(crate) fn push_count(text: &mut Vec<u8>, kind: &[u8], count: u64) -> Result<(), NoMemory<()>>
    ensures { OnOk result (text.new.items ≡ text.old.items ++ spaced_words (kind.now ∷ decimal count ∷ [])) }
{
    push_word(text, kind)?;
    push_number(text, count)
}

/// How many heads were signed.
fn signed(journal: &[Entry<ScriptCredential>]) -> u64
    ensures { result ≡ signed journal.now }
{
    let mut count: u64 = 0;
    for entry in journal {
        count += u64::from(is_done(&entry.reply));
    }
    count
}

/// How often the provider was asked.
pub(crate) fn loads(journal: &[Entry<ScriptCredential>]) -> u64
    ensures { result ≡ loads journal.now }
{
    let mut count: u64 = 0;
    for entry in journal {
        count += u64::from(is_ask(&entry.reply));
    }
    count
}

fn is_done(reply: &Reply<ScriptCredential>) -> bool
    ensures { result ≡ is_done reply.now }
{
    matches!(reply, Reply::Done { .. })
}

fn is_ask(reply: &Reply<ScriptCredential>) -> bool
    ensures { result ≡ is_ask reply.now }
{
    matches!(reply, Reply::Ask { .. })
}
