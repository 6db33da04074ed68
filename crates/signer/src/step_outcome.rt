//! What one step of a call comes to: the poll goes on, or it is over.
ghost use Rattle.std.specs.Prelude.{◌≡◌, None};
ghost use Rattle.signer.specs.declared.step_outcome.StepFlow.TheVariants.{Continue, Stop};
ghost use Rattle.signer.specs.declared.step_outcome.StepEnd.TheVariants.{Refused};

use crate::refusal::Refusal;
use crate::sign::SignState;
use sign_base::CallId;

/// How a poll ends, with how far the call is where it is not over.
#[derive(Drop)]
pub(crate) enum StepEnd<K, L, W> {
    Pending(SignState<K, L, W>),
    Done,
    Refused(Refusal),
    OutOfMemory(SignState<K, L, W>),
}

/// What a step came to.
#[derive(Drop)]
pub(crate) enum StepFlow<K, L, W> {
    /// The poll goes on from here.
    Continue(SignState<K, L, W>),
    Stop(StepEnd<K, L, W>),
}

/// What a step came to, and the call that has its turn by it.
#[derive(Drop)]
pub(crate) struct StepOutcome<K, L, W> {
    pub(crate) flow: StepFlow<K, L, W>,
    pub(crate) wake: Option<CallId>,
}

impl<K, L, W> StepOutcome<K, L, W> {
    /// The poll goes on.
    pub(crate) fn continue_from(
        state: SignState<K, L, W>,
        wake: Option<CallId>,
    ) -> StepOutcome<K, L, W>
        ensures { result ≡ record { flow = Continue state; wake = wake } }
    {
        StepOutcome {
            flow: StepFlow::Continue(state),
            wake,
        }
    }

    /// The poll is over, and no call is woken.
    pub(crate) fn stop(end: StepEnd<K, L, W>) -> StepOutcome<K, L, W>
        ensures { result ≡ record { flow = Stop end; wake = None } }
    {
        StepOutcome {
            flow: StepFlow::Stop(end),
            wake: None,
        }
    }

    /// The call is refused.
    pub(crate) fn refused(why: Refusal, wake: Option<CallId>) -> StepOutcome<K, L, W>
        ensures { result ≡ record { flow = Stop (Refused why); wake = wake } }
    {
        StepOutcome {
            flow: StepFlow::Stop(StepEnd::Refused(why)),
            wake,
        }
    }
}
