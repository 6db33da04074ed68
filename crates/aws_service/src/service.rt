//! Signing for AWS as a service of a signer.
ghost use Rattle.std.specs.Prelude.{◌≡◌, ◌⊎◌, ⊤, Ok, Err, IfOk, IfErr, option_map};
ghost use Rattle.std.specs.Duration.{as_nanos};
ghost use Rattle.sequential_signer.specs.Deadline.{operation_end};
ghost use Rattle.sign_request.specs.Keys.{no_keys};
ghost use Rattle.aws_service.specs.Refused.{error_of};
ghost use Rattle.aws_service.specs.Service.{aws_signing, GivesSigned, IsWorkOf};

use crate::{AwsError, ContentRule, LeftOut};
use aws_credentials::{SessionCredential, SigningClock};
use credentials::{Polled, SignRequest};
use sequential_signer::{DeadlineRule, SigningCredential, operation_end};
use sign_base::{Head, NoMemory, Timestamp};
use sign_request::HeaderSeeds;
use sigv4_core::{Payload, SigScope};
use std::alloc::Global;
use std::marker::{Model, PhantomData};
use std::time::Duration;

/// Signs requests for one region and service of AWS with the credentials of sessions, at the moment that the
/// clock of its context tells at the poll. Without a duration it signs the head, with one it makes a link. It
/// answers every poll, and it has no debug form.
#[derive(Drop)]
pub struct AwsService<X> {
    pub(crate) scope: SigScope,
    pub(crate) payload: Payload,
    pub(crate) content: ContentRule,
    pub(crate) left_out: LeftOut,
    pub(crate) keys: HeaderSeeds,
    context: PhantomData<X>,
}

impl<X> Model for AwsService<X> {
    ghost use Rattle.aws_service.specs.ServiceView.{ServiceView};

    ghost Value = { ServiceView };

    ghost view = { λ s. record {
      scope = s.scope;
      payload = s.payload;
      content = s.content;
      left_out = s.left_out;
      keys = s.keys;
    } };
}

impl<X> AwsService<X> {
    /// A service for this region and service. The word of the payload is for each head that does not say
    /// its own, by the rule; `LeftOut::agents` is for most.
    pub fn new(
        scope: SigScope,
        payload: Payload,
        content: ContentRule,
        left_out: LeftOut,
    ) -> AwsService<X>
        ensures { result ≡ record {
          scope = scope;
          payload = payload;
          content = content;
          left_out = left_out;
          keys = no_keys;
        } }
    {
        AwsService {
            scope,
            payload,
            content,
            left_out,
            keys: HeaderSeeds::default(),
            context: PhantomData,
        }
    }

    /// The service with these keys for the header maps that it makes, where the names of headers come
    /// from outside. No answer depends on them.
    pub fn with_header_seeds(self, keys: HeaderSeeds) -> AwsService<X>
        ensures { result ≡ record self { keys = keys } }
    {
        AwsService { keys, ..self }
    }

    /// The head signed in its headers, or with a duration a link that is good for its whole seconds.
    #[tactic(auto, unfolding(crate::specs::Service::aws_signing))]
    pub fn sign(
        &self,
        alloc: Global,
        head: &Head,
        session: &SessionCredential,
        expires_in: Option<Duration>,
        now: Timestamp,
    ) -> Result<Head, AwsError>
        ensures ok { IfOk result (λ h.
            aws_signing self.now session.now (option_map as_nanos expires_in) now head.now ≡ Ok h) }
        ensures err { IfErr result (λ why. (why ≡ AwsError.OutOfMemory)
            ⊎ (aws_signing self.now session.now (option_map as_nanos expires_in) now head.now ≡ Err why)) }
    {
        match expires_in {
            Some(duration) => self.presign_for(alloc, head, session, duration, now),
            None => self.sign_head(alloc, head, session, now),
        }
    }
}

/// A signing that was begun: with which credential, and for how long.
#[derive(Drop)]
pub struct AwsWork {
    session: SessionCredential,
    expires_in: Option<Duration>,
}

/// The credential has to last to the end of the operation: a link's key to the link's end.
impl<X: SigningClock> DeadlineRule for AwsService<X> {
    type Credential = SessionCredential;

    ghost deadline = { λ service credential duration now. operation_end duration now };

    fn required_valid_until(
        &self,
        _credential: &SessionCredential,
        expires_in: Option<Duration>,
        now: Timestamp,
    ) -> Option<Timestamp> {
        operation_end(expires_in, now)
    }
}

impl<X: SigningClock> SignRequest for AwsService<X> {
    type Ctx = X;

    type Work = AwsWork;

    ghost started = { λ service ctx operation work. IsWorkOf operation work };

    ghost ready = { λ service ctx work. ⊤ };

    ghost gives = { λ service ctx operation head outcome.
        GivesSigned (λ moment. X.tells ctx moment) service operation head outcome };

    fn sign_request(
        &self,
        alloc: Global,
        _ctx: &X,
        credential: &SessionCredential,
        expires_in: Option<Duration>,
    ) -> Result<AwsWork, NoMemory<()>> {
        Ok(AwsWork {
            session: credential.try_clone(alloc)?,
            expires_in,
        })
    }

    fn poll_sign(
        &self,
        alloc: Global,
        ctx: &X,
        work: &mut AwsWork,
        candidate: &mut Head,
    ) -> Polled<()> {
        let now = ctx.moment();
        match self.sign(alloc, candidate, &work.session, work.expires_in, now) {
            Ok(signed) => {
                *candidate = signed;
                Polled::Ready(())
            }
            Err(AwsError::OutOfMemory) => Polled::OutOfMemory,
            Err(why) => failed(alloc, why),
        }
    }
}

/// The failure for this cause.
fn failed(alloc: Global, why: AwsError) -> Polled<()>
    ensures { (result ≡ Polled.Failed (error_of why)) ⊎ (result ≡ Polled.OutOfMemory) }
{
    match why.into_error(alloc) {
        Ok(error) => Polled::Failed(error),
        Err(_) => Polled::OutOfMemory,
    }
}
