//! How a poll goes on by a reply of its desk.
ghost use Rattle.std.specs.Prelude.{◌≡◌};
ghost use Rattle.granter.specs.OutcomeByReply.{plain_refusal, flow_after_poll, flow_after_found};
ghost use Rattle.granter.specs.OutcomeByReply.{flow_after_none, flow_after_made};

use crate::grant::{CallState, WorkState};
use crate::refusal::GrantRefusal;
use crate::step_outcome::{StepEnd, StepFlow};
use desk_driver::LoadState;
use sequential_signer::{GrantReply, GrantWhy};

/// A poll of a call that has not looked at its cache yet. The desk replies out of memory where it replies
/// none of these.
pub(crate) fn after_poll<K: Drop, L, W>(reply: GrantReply<K>) -> StepFlow<K, L, W>
    ensures { result ≡ flow_after_poll reply }
{
    match reply {
        GrantReply::Ask { provider } => {
            StepFlow::Continue(CallState::Loading(provider, LoadState::Unstarted))
        }
        GrantReply::Grant { source } => StepFlow::Continue(CallState::Granting(
            source,
            WorkState::Unstarted,
        )),
        GrantReply::Refused { why } => StepFlow::Stop(StepEnd::Refused(refusal_of(why))),
        _ => StepFlow::Stop(StepEnd::OutOfMemory(CallState::Waiting)),
    }
}

/// A source that this provider found, and that is kept where there was no memory to take it.
pub(crate) fn after_found<K: Drop, L, W>(
    provider: u32,
    found: K,
    reply: GrantReply<K>,
) -> StepFlow<K, L, W>
    ensures { result ≡ flow_after_found provider found reply }
{
    match reply {
        GrantReply::Grant { source } => StepFlow::Continue(CallState::Granting(
            source,
            WorkState::Unstarted,
        )),
        GrantReply::Refused { why } => StepFlow::Stop(StepEnd::Refused(refusal_of(why))),
        _ => {
            let kept = CallState::Loading(provider, LoadState::Found(found));
            StepFlow::Stop(StepEnd::OutOfMemory(kept))
        }
    }
}

/// An answer that is no source: the next provider is asked, or the call is refused, by this refusal where
/// the provider is a single one.
pub(crate) fn after_none<K: Drop, L, W>(
    failure: GrantRefusal,
    reply: GrantReply<K>,
) -> StepFlow<K, L, W>
    ensures { result ≡ flow_after_none failure reply }
{
    match reply {
        GrantReply::Ask { provider } => {
            StepFlow::Continue(CallState::Loading(provider, LoadState::Unstarted))
        }
        GrantReply::Refused {
            why: GrantWhy::Missing,
        } => StepFlow::Stop(StepEnd::Refused(GrantRefusal::Missing)),
        _ => StepFlow::Stop(StepEnd::Refused(failure)),
    }
}

/// A credential that was made of this source, and that is kept where there was no memory to give it.
pub(crate) fn after_made<K: Drop, L, W>(
    source: K,
    made: K,
    reply: GrantReply<K>,
) -> StepFlow<K, L, W>
    ensures { result ≡ flow_after_made source made reply }
{
    match reply {
        GrantReply::Given { credential } => StepFlow::Stop(StepEnd::Given(credential)),
        GrantReply::Refused { why } => StepFlow::Stop(StepEnd::Refused(refusal_of(why))),
        _ => {
            let kept = CallState::Granting(source, WorkState::Made(made));
            StepFlow::Stop(StepEnd::OutOfMemory(kept))
        }
    }
}

/// The refusal for a cause that names no error.
fn refusal_of(why: GrantWhy) -> GrantRefusal
    ensures { result ≡ plain_refusal why }
{
    match why {
        GrantWhy::Short(deadline) => GrantRefusal::Short(deadline),
        GrantWhy::Range => GrantRefusal::Range,
        GrantWhy::Stale(moment) => GrantRefusal::Stale(moment),
        GrantWhy::Missing | GrantWhy::Loader(_) | GrantWhy::Service(_) => GrantRefusal::Missing,
    }
}
