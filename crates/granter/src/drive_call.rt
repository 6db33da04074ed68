//! One poll of a call: steps, one after another, as far as its objects answer now.
ghost use Rattle.std.specs.Prelude.{◌≡◌, Some, IsSome};
ghost use Rattle.desk_driver.specs.CallAt.{loader_of, service_of};
ghost use Rattle.desk_driver.specs.ProviderList.{loader_for};
ghost use Rattle.granter.specs.PollContext.{poll_context, IsIssuedFor, IsDrivenFrom};
ghost use Rattle.granter.specs.StepOutcome.{answer_by};

use crate::call_objects::CallObjects;
use crate::grant::Grant;
use crate::grant_poll::GrantPoll;
use crate::step_call::step;
use crate::step_outcome::{StepEnd, StepFlow};
use credentials::{GrantCredential, ProvideCredential};
use desk_driver::BegunCall;
use grant_desk::GrantDesk;
use sequential_signer::SigningCredential;
use sign_base::Timestamp;

/// Polls a call of a granter with these objects.
pub(crate) fn drive<P, G>(
    desk: &mut GrantDesk<P::Credential, G>,
    objects: &CallObjects<'_, P, P::Ctx>,
    grant: Grant<P, G>,
    now: Timestamp,
) -> GrantPoll<P, G>
where
    P: ProvideCredential,
    P::Credential: SigningCredential,
    G: GrantCredential<Credential = P::Credential, Ctx = P::Ctx>,
    requires there { IsSome (service_of desk.old grant.begun.id.handle) }
    requires loads { loader_of desk.old grant.begun.id.handle ≡ Some (loader_for objects.now.providers.now) }
    requires issued { IsIssuedFor (poll_context P.Credential.SigningCredential P.ProvideCredential
        G.DeadlineRule G.GrantCredential.own objects.now grant.begun now) desk.old grant.state }
    ensures { IsDrivenFrom (poll_context P.Credential.SigningCredential P.ProvideCredential
        G.DeadlineRule G.GrantCredential.own objects.now grant.begun now) grant.state desk.old
        desk.new result }
{
    let Grant { begun, mut state } = grant;
    loop {
        match step(desk, objects, &begun, now, state) {
            StepFlow::Continue(next) => state = next,
            StepFlow::Stop(end) => return answer_of(begun, end),
        }
    }
}

/// The answer of a poll that ended so.
fn answer_of<P, G>(
    begun: BegunCall<()>,
    end: StepEnd<P::Credential, P::Load, G::Work>,
) -> GrantPoll<P, G>
where
    P: ProvideCredential,
    G: GrantCredential<Credential = P::Credential, Ctx = P::Ctx>,
    ensures { result ≡ answer_by begun end }
{
    match end {
        StepEnd::Pending(state) => GrantPoll::Pending(Grant { begun, state }),
        StepEnd::Given(credential) => GrantPoll::Given(credential),
        StepEnd::Refused(why) => GrantPoll::Refused(why),
        StepEnd::OutOfMemory(state) => GrantPoll::OutOfMemory(Grant { begun, state }),
    }
}
