//! A role's credential as a granting service of a granter.
ghost use Rattle.std.specs.Prelude.{◌≡◌, ◌⊎◌, Some, IfOk};
ghost use Rattle.aws_sts.specs.Refused.{error_of};
ghost use Rattle.aws_sts.specs.RoleAnswer.{granted};
ghost use Rattle.aws_sts.specs.RoleGrant.{IsRoleWork, IsRoleReady, GivesRole, poll_answer};

use crate::granted::granted;
use crate::{AssumeRole, RoleError, RoleWork};
use aws_credentials::{ClockedContext, SessionCredential, SigningClock};
use bytes::Bytes;
use credentials::{CommandExecute, Env, FileRead, GrantCredential, HttpSend, Polled};
use http::{Request, Response};
use sequential_signer::DeadlineRule;
use sign_base::{ErrorKind, NoMemory, Timestamp};
use std::alloc::Global;
use std::time::Duration;

/// The source has to be valid when it is asked, and no longer: a role's session may outlast it.
impl<Z: Drop> DeadlineRule for AssumeRole<Z> {
    type Credential = SessionCredential;

    ghost deadline = { λ asked source duration now. Some now };

    fn required_valid_until(
        &self,
        _credential: &SessionCredential,
        _expires_in: Option<Duration>,
        now: Timestamp,
    ) -> Option<Timestamp> {
        Some(now)
    }
}

impl<F: FileRead, H: HttpSend, E: Env, C: CommandExecute, X: SigningClock> GrantCredential
    for AssumeRole<ClockedContext<F, H, E, C, X>> {
    type Ctx = ClockedContext<F, H, E, C, X>;

    type Work = RoleWork<H::Send>;

    ghost started = { λ asked ctx operation work. IsRoleWork (λ moment. X.tells ctx.clock moment) asked
        operation (λ request answer. H.gives ctx.objects.http_send request answer)
        (λ request send. H.started ctx.objects.http_send request send) work };

    ghost ready = { λ asked ctx work. IsRoleReady (λ send. H.ready ctx.objects.http_send send) work };

    ghost gives = { λ asked ctx operation answer. GivesRole (λ moment. X.tells ctx.clock moment) asked
        operation (λ request answer. H.gives ctx.objects.http_send request answer) answer };

    fn grant_credential(
        &self,
        alloc: Global,
        ctx: &ClockedContext<F, H, E, C, X>,
        source: &SessionCredential,
        expires_in: Option<Duration>,
    ) -> Result<RoleWork<H::Send>, NoMemory<()>> {
        match self.request(alloc, source, expires_in, ctx.moment()) {
            Ok(request) => Ok(RoleWork::Sent(sent(alloc, ctx, request)?)),
            Err(RoleError::OutOfMemory) => Err(NoMemory { back: () }),
            Err(why) => Ok(RoleWork::Refused(why)),
        }
    }

    fn poll_grant(
        &self,
        alloc: Global,
        ctx: &ClockedContext<F, H, E, C, X>,
        work: &mut RoleWork<H::Send>,
    ) -> Polled<SessionCredential> {
        match work {
            RoleWork::Refused(why) => refused(alloc, *why),
            RoleWork::Answered(response) => read(alloc, response),
            RoleWork::Sent(send) => match ctx.objects.poll_http_send(alloc, send) {
                Polled::Ready(response) => {
                    let answer = read(alloc, &response);
                    *work = RoleWork::Answered(response);
                    answer
                }
                Polled::Pending => Polled::Pending,
                Polled::Failed(error) => Polled::Failed(error),
                Polled::OutOfMemory => Polled::OutOfMemory,
            },
        }
    }
}

/// The request, sent.
fn sent<F: FileRead, H: HttpSend, E: Env, C: CommandExecute, X: SigningClock>(
    alloc: Global,
    ctx: &ClockedContext<F, H, E, C, X>,
    request: Request<Bytes>,
) -> Result<H::Send, NoMemory<()>>
    ensures { IfOk result (λ send. H.started ctx.now.objects.http_send request send) }
{
    match ctx.objects.http_send(alloc, request) {
        Ok(send) => Ok(send),
        Err(_) => Err(NoMemory { back: () }),
    }
}

/// The failure for this cause.
fn refused(alloc: Global, why: RoleError) -> Polled<SessionCredential>
    ensures { (result ≡ Polled.Failed (error_of why)) ⊎ (result ≡ Polled.OutOfMemory) }
{
    match why.into_error(alloc) {
        Ok(error) => Polled::Failed(error),
        Err(_) => Polled::OutOfMemory,
    }
}

/// What a response grants, as the answer of a poll.
fn read(alloc: Global, response: &Response<Bytes>) -> Polled<SessionCredential>
    ensures { (result ≡ poll_answer (granted response.now)) ⊎ (result ≡ Polled.OutOfMemory) }
{
    match granted(alloc, response) {
        Ok(session) => Polled::Ready(session),
        Err(error) if error.kind() == ErrorKind::OutOfMemory => Polled::OutOfMemory,
        Err(error) => Polled::Failed(error),
    }
}
