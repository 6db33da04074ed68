//! How far a job is: what is next for its call, and how it ended.
ghost use Rattle.std.specs.Prelude.{◌≡◌};
ghost use Rattle.sequential_signer.specs.Phase.{is_not_now};
ghost use Rattle.signer_shared.specs.Serving.{next_after};
ghost use Rattle.signer_shared.specs.declared.next_step.JobEnd.TheVariants.{OutOfMemory};
ghost use Rattle.signer_shared.specs.declared.next_step.NextStep.TheVariants.{Over};

use sequential_signer::Reply;

#[derive(Clone, Copy, Debug, PartialEq, Eq)]
pub(crate) enum JobEnd {
    Done,
    Refused,
    NotNow,
    /// The provider that was asked last was not ready in time.
    GivenUp,
    /// An allocation failed. `not_now`: the cancel of the call was answered `NotNow`.
    OutOfMemory { not_now: bool },
}

/// What is next for a job's call.
#[derive(Drop)]
pub(crate) enum NextStep<K> {
    Begin,
    Poll,
    /// The provider with this number is to be asked.
    Load(u32),
    /// The service is to sign with this credential.
    Sign(K),
    Over(JobEnd),
}

impl<K> NextStep<K> {
    pub(crate) fn after(reply: Reply<K>) -> NextStep<K>
        ensures { result ≡ next_after reply }
    {
        match reply {
            Reply::Begun | Reply::Pending => NextStep::Poll,
            Reply::Ask { provider } => NextStep::Load(provider),
            Reply::Sign { credential, .. } => NextStep::Sign(credential),
            Reply::Done { .. } => NextStep::Over(JobEnd::Done),
            Reply::Refused { .. } => NextStep::Over(JobEnd::Refused),
            Reply::NotNow => NextStep::Over(JobEnd::NotNow),
            Reply::Cancelled { .. } => NextStep::Over(JobEnd::GivenUp),
            Reply::OutOfMemory => NextStep::Over(JobEnd::OutOfMemory { not_now: false }),
        }
    }

    /// What is next after the cancel of a call at which an allocation failed.
    pub(crate) fn stopped(reply: &Reply<K>) -> NextStep<K>
        ensures { result ≡ Over (OutOfMemory (is_not_now reply.now)) }
    {
        NextStep::Over(JobEnd::OutOfMemory {
            not_now: matches!(reply, Reply::NotNow),
        })
    }
}
