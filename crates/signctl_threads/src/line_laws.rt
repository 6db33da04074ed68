//! The laws of the lines of a pool and of a queue, over the definitions alone: each function's contract is
//! the law.
ghost use Rattle.signctl_threads.specs.LineLaws.{EveryPoolWritesTheSameLine, EveryQueueWritesTheSameLine};

/// A pool whose gate answers at once writes one line, `calls J signed J loads L settled`, where L is the
/// lesser of J and 1, in every order in which its workers' steps may come.
pub fn every_pool_writes_the_same_line()
    ensures { EveryPoolWritesTheSameLine }
{}

/// A queue whose gate is `PoolGate` writes one line, `calls J answered J left 0 loads L settled`, where L is
/// the lesser of J and 1, in every order in which its workers' steps may come.
pub fn every_queue_writes_the_same_line()
    ensures { EveryQueueWritesTheSameLine }
{}
