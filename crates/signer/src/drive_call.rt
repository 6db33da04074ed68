//! One poll of a call: steps, one after another, as far as its objects answer now.
ghost use Rattle.std.specs.Prelude.{◌≡◌, Some, IsSome};
ghost use Rattle.desk_driver.specs.CallAt.{loader_of, service_of};
ghost use Rattle.signer.specs.PollContext.{poll_context, IsIssuedFor, IsDrivenFrom};
ghost use Rattle.signer.specs.StepOutcome.{answer_by};
ghost use Rattle.desk_driver.specs.ProviderList.{loader_for};

use crate::call_objects::CallObjects;
use crate::sign::{Sign, SignState};
use crate::sign_poll::{SignAnswer, SignPoll};
use crate::step_call::step;
use crate::step_outcome::{StepEnd, StepFlow};
use credentials::{ProvideCredential, SignRequest};
use desk_driver::BegunCall;
use http::request::Parts;
use sequential_signer::SigningCredential;
use sign_base::{Head, Timestamp};
use sign_desk::Desk;

/// Polls a call of a signer with these objects.
pub(crate) fn drive<P, S>(
    desk: &mut Desk<P::Credential, S>,
    objects: &CallObjects<'_, P, P::Ctx>,
    sign: Sign<P, S>,
    req: &mut Parts,
    now: Timestamp,
) -> SignPoll<P, S>
where
    P: ProvideCredential,
    P::Credential: SigningCredential,
    S: SignRequest<Credential = P::Credential, Ctx = P::Ctx>,
    requires there { IsSome (service_of desk.old sign.begun.id.handle) }
    requires loads { loader_of desk.old sign.begun.id.handle ≡ Some (loader_for objects.now.providers.now) }
    requires issued { IsIssuedFor (poll_context P.Credential.SigningCredential P.ProvideCredential
        S.DeadlineRule S.SignRequest.own objects.now sign.begun now) desk.old sign.state }
    ensures { IsDrivenFrom (poll_context P.Credential.SigningCredential P.ProvideCredential
        S.DeadlineRule S.SignRequest.own objects.now sign.begun now) sign.state desk.old desk.new
        (record { poll = result; before = req.old; after = req.new }) }
{
    let Sign { begun, mut state } = sign;
    let mut wake = None;
    loop {
        let taken = step(desk, objects, &begun, now, state, req);
        wake = wake.or(taken.wake);
        match taken.flow {
            StepFlow::Continue(next) => state = next,
            StepFlow::Stop(end) => {
                return SignPoll {
                    answer: answer_of(begun, end),
                    wake,
                };
            }
        }
    }
}

/// The answer of a poll that ended so.
fn answer_of<P, S>(
    begun: BegunCall<Head>,
    end: StepEnd<P::Credential, P::Load, S::Work>,
) -> SignAnswer<P, S>
where
    P: ProvideCredential,
    S: SignRequest<Credential = P::Credential, Ctx = P::Ctx>,
    ensures { result ≡ answer_by begun end }
{
    match end {
        StepEnd::Pending(state) => SignAnswer::Pending(Sign { begun, state }),
        StepEnd::Done => SignAnswer::Done,
        StepEnd::Refused(why) => SignAnswer::Refused(why),
        StepEnd::OutOfMemory(state) => SignAnswer::OutOfMemory(Sign { begun, state }),
    }
}
