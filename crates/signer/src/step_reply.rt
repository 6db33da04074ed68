//! How a poll goes on by a reply of its desk.
ghost use Rattle.std.specs.Prelude.{◌≡◌};
ghost use Rattle.signer.specs.OutcomeByReply.{plain_refusal, refusal_after, outcome_after_poll};
ghost use Rattle.signer.specs.OutcomeByReply.{outcome_after_found, outcome_after_none};

use crate::refusal::Refusal;
use crate::sign::{SignState, WorkState};
use crate::step_outcome::{StepEnd, StepOutcome};
use desk_driver::LoadState;
use sequential_signer::{Reply, Why};
use sign_base::Head;

/// A poll of a call that waits. The desk replies out of memory where it replies none of these.
pub(crate) fn after_poll<K: Drop, L, W>(candidate: Head, reply: Reply<K>) -> StepOutcome<K, L, W>
    ensures { result ≡ outcome_after_poll candidate reply }
{
    match reply {
        Reply::Pending => StepOutcome::stop(StepEnd::Pending(SignState::Waiting(candidate))),
        Reply::Ask { provider } => {
            let loading = SignState::Loading {
                candidate,
                provider,
                load: LoadState::Unstarted,
            };
            StepOutcome::continue_from(loading, None)
        }
        Reply::Sign { credential, wake } => {
            let signing = SignState::Signing(credential, WorkState::Unstarted(candidate));
            StepOutcome::continue_from(signing, wake)
        }
        Reply::Refused { why, wake } => {
            drop(candidate);
            StepOutcome::refused(refusal_of(why), wake)
        }
        _ => {
            drop(reply);
            StepOutcome::stop(StepEnd::OutOfMemory(SignState::Waiting(candidate)))
        }
    }
}

/// A credential that this provider found, and that is kept where there was no memory to take it.
pub(crate) fn after_found<K: Drop, L, W>(
    candidate: Head,
    provider: u32,
    found: K,
    reply: Reply<K>,
) -> StepOutcome<K, L, W>
    ensures { result ≡ outcome_after_found candidate provider found reply }
{
    match reply {
        Reply::Sign { credential, wake } => {
            drop(found);
            let signing = SignState::Signing(credential, WorkState::Unstarted(candidate));
            StepOutcome::continue_from(signing, wake)
        }
        Reply::Refused { why, wake } => {
            drop(candidate);
            drop(found);
            StepOutcome::refused(refusal_of(why), wake)
        }
        _ => {
            drop(reply);
            let kept = SignState::Loading {
                candidate,
                provider,
                load: LoadState::Found(found),
            };
            StepOutcome::stop(StepEnd::OutOfMemory(kept))
        }
    }
}

/// An answer that is no credential: the next provider is asked, or the call is refused, by this refusal
/// where the provider is a single one.
pub(crate) fn after_none<K: Drop, L, W>(
    candidate: Head,
    failure: Refusal,
    reply: Reply<K>,
) -> StepOutcome<K, L, W>
    ensures { result ≡ outcome_after_none candidate failure reply }
{
    match reply {
        Reply::Ask { provider } => {
            drop(failure);
            let loading = SignState::Loading {
                candidate,
                provider,
                load: LoadState::Unstarted,
            };
            StepOutcome::continue_from(loading, None)
        }
        Reply::Refused { why, wake } => {
            drop(candidate);
            StepOutcome::refused(refusal_after(why, failure), wake)
        }
        _ => {
            drop(candidate);
            drop(reply);
            StepOutcome::refused(failure, None)
        }
    }
}

/// The refusal of a call for which no provider has a credential: this one, or that there is none.
fn refusal_after(why: Why, failure: Refusal) -> Refusal
    ensures { result ≡ refusal_after why failure }
{
    match why {
        Why::Missing => Refusal::Missing,
        _ => failure,
    }
}

/// The refusal for a cause that names no error.
fn refusal_of(why: Why) -> Refusal
    ensures { result ≡ plain_refusal why }
{
    match why {
        Why::Short(deadline) => Refusal::Short(deadline),
        Why::Range => Refusal::Range,
        Why::Missing | Why::Loader(_) | Why::Service(_) => Refusal::Missing,
    }
}
