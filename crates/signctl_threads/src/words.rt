//! The commands that threads serve, by their words.
ghost use Rattle.std.specs.Prelude.{◌≡◌, ◌<◌, ◌≤◌, IfSome, map, string_bytes, option_map};
ghost use Rattle.signctl_threads.specs.Words.{threaded_command, pool_by_words, queue_by_words};
ghost use Rattle.signctl_threads.specs.Words.{names_threaded, IsPoolSize};
ghost use Rattle.signctl_threads.specs.Words.{most_workers, most_jobs, most_capacity};
ghost use Rattle.signctl_threads.specs.CommandLine.{is_for_threads};

use line_words::word::parse_number;
use signctl_driver::status::after_name;

/// The most workers of a pool.
const MOST_WORKERS: u64 = 64;

/// The most jobs of a pool.
const MOST_JOBS: u64 = 10_000;

/// The most jobs that a queue holds.
const MOST_CAPACITY: u64 = 1_024;

/// A command that threads serve.
#[derive(Clone, Copy, Debug, PartialEq, Eq)]
pub enum ThreadedCommand {
    /// So many jobs, by so many workers.
    Pool {
        workers: u32,
        jobs: u64,
    },
    /// So many jobs, by so many workers, through a queue that holds so many.
    Queue {
        workers: u32,
        jobs: u64,
        capacity: u64,
    },
}

/// The command that the words name.
pub(crate) fn command_of(words: &[String]) -> Option<ThreadedCommand>
    ensures named { result ≡ threaded_command (map string_bytes words.now) }
    ensures size { IfSome result IsPoolSize }
{
    match words {
        [word, workers, jobs] => pool_by_words(word.as_str(), workers.as_str(), jobs.as_str()),
        [word, workers, jobs, capacity] => queue_by_words(
            word.as_str(),
            workers.as_str(),
            jobs.as_str(),
            capacity.as_str(),
        ),
        _ => None,
    }
}

fn pool_by_words(word: &str, workers: &str, jobs: &str) -> Option<ThreadedCommand>
    ensures named { result ≡ pool_by_words word.now workers.now jobs.now }
    ensures size { IfSome result IsPoolSize }
{
    if word != "pool" {
        return None;
    }
    let workers = parse_number(MOST_WORKERS, workers.as_bytes()).ok()?;
    let jobs = parse_number(MOST_JOBS, jobs.as_bytes()).ok()?;
    if workers == 0 {
        return None;
    }
    Some(ThreadedCommand::Pool {
        workers: workers as u32,
        jobs,
    })
}

fn queue_by_words(word: &str, workers: &str, jobs: &str, capacity: &str) -> Option<ThreadedCommand>
    ensures named { result ≡ queue_by_words word.now workers.now jobs.now capacity.now }
    ensures size { IfSome result IsPoolSize }
{
    if word != "queue" {
        return None;
    }
    let workers = parse_number(MOST_WORKERS, workers.as_bytes()).ok()?;
    let jobs = parse_number(MOST_JOBS, jobs.as_bytes()).ok()?;
    let capacity = parse_number(MOST_CAPACITY, capacity.as_bytes()).ok()?;
    if workers == 0 || capacity == 0 {
        return None;
    }
    Some(ThreadedCommand::Queue {
        workers: workers as u32,
        jobs,
        capacity,
    })
}

/// Whether the first word is that of a command that threads serve.
pub fn names_threaded(words: &[String]) -> bool
    ensures { result ≡ names_threaded (map string_bytes words.now) }
{
    match words {
        [word, ..] => word.as_str() == "pool" || word.as_str() == "queue",
        [] => false,
    }
}

/// Whether a command line, whose first word is the program's name, is one for `run_threads`. Any other is for
/// `signctl_core::run_program`. `None` is a command line that is not text.
pub fn is_for_threads(words: &Option<Vec<String>>) -> bool
    ensures { result ≡ is_for_threads (option_map (λ all. map string_bytes all.items) words.now) }
{
    match words {
        Some(all) => names_threaded(after_name(all.as_slice())),
        None => false,
    }
}
