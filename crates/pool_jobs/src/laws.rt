//! The law of the program's pool, over the definitions alone: the function's contract is the law.
ghost use Rattle.pool_jobs.specs.Laws.{EveryPoolCallIsSigned};

pub use prompt_law::prompt_calls_are_signed;

/// In a run of a pool with at least one worker, in which no worker ran out of memory, each job is signed,
/// and the provider is asked once, or not at all where there is no job.
pub fn every_pool_call_is_signed()
    ensures { EveryPoolCallIsSigned }
{}
