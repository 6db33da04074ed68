//! The line of a queue: how many jobs were submitted, answered and left, and how
//! often the provider was asked.
ghost use Rattle.std.specs.Prelude.{◌≡◌, ◌<◌, ◌^◌, ◌++◌, ◌∷◌, [], IfOk, OnOk, length, decimal, codes};
ghost use Rattle.line_words.specs.Words.{spaced_words};
ghost use Rattle.pool_jobs.specs.Run.{loads};
ghost use Rattle.pool_books.specs.Cleared.{joined, lists_of};
ghost use Rattle.signctl_threads.specs.Line.{books_line};

use crate::line::{loads, push_count};
use line_words::text::{push, push_number, push_word};
use sign_base::NoMemory;
use sign_pool::Finished;
use signctl_format::{ScriptCredential, ScriptRule};
use std::alloc::Global;

/// The line of these books.
pub(crate) fn books_line(
    alloc: Global,
    finished: &Finished<ScriptCredential, ScriptRule>,
) -> Result<Vec<u8>, NoMemory<()>>
    requires submitted { length (joined (lists_of finished.now.submitted.items)) < 2 ^ 64 }
    requires answered { length (joined (lists_of finished.now.answers.items)) < 2 ^ 64 }
    ensures { IfOk result
        (λ line. line.items ≡ books_line
        (length (joined (lists_of finished.now.submitted.items)))
        (length (joined (lists_of finished.now.answers.items)))
        (length finished.now.left.items)
        (loads finished.now.settled.journal.items)) }
{
    let calls = count_all(finished.submitted.as_slice());
    let answered = count_all(finished.answers.as_slice());
    let left = finished.left.len() as u64;
    let loads = loads(finished.settled.journal.as_slice());
    line_of_counts(alloc, calls, answered, left, loads)
}

fn line_of_counts(
    alloc: Global,
    calls: u64,
    answered: u64,
    left: u64,
    loads: u64,
) -> Result<Vec<u8>, NoMemory<()>>
    ensures { IfOk result (λ line. line.items ≡ books_line calls answered left loads) }
{
    let mut line = Vec::new(alloc);
    push(&mut line, b"calls")?;
    push_number(&mut line, calls)?;
    push_answered(&mut line, answered, left)?;
    push_count(&mut line, b"loads", loads)?;
    push_word(&mut line, b"settled")?;
    push(&mut line, b"\n")?;
    Ok(line)
}

fn push_answered(text: &mut Vec<u8>, answered: u64, left: u64) -> Result<(), NoMemory<()>>
    ensures { OnOk result (text.new.items ≡ text.old.items
        ++ spaced_words (codes "answered" ∷ decimal answered ∷ codes "left" ∷ decimal left ∷ [])) }
{
    push_count(text, b"answered", answered)?;
    push_count(text, b"left", left)
}

/// How many items the lists have together.
fn count_all<T>(lists: &[Vec<T>]) -> u64
    requires { length (joined (lists_of lists.now)) < 2 ^ 64 }
    ensures { result ≡ length (joined (lists_of lists.now)) }
{
    let mut count: u64 = 0;
    for list in lists {
        count += list.len() as u64;
    }
    count
}
