//! The law of finished queues, over the definitions alone: the function's contract is the law.
ghost use Rattle.signctl_threads.specs.QueueLaws.{EveryQueueJobIsSigned};

/// In a finished queue whose gate is `PoolGate` each job is signed, no event misfits, no call is refused or
/// given up, and the provider is asked once, or not at all where there is no job. So it is in every order in
/// which the workers' steps may come.
pub fn every_queue_job_is_signed()
    ensures { EveryQueueJobIsSigned }
{}
