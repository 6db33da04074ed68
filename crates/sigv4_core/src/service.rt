//! Signature Version 4 as a service of a signer.
ghost use Rattle.std.specs.Prelude.{◌≡◌, ◌⊎◌, ⊤, IfOk};
ghost use Rattle.sequential_signer.specs.Deadline.{operation_end};
ghost use Rattle.sign_request.specs.Keys.{no_keys};
ghost use Rattle.sigv4_core.specs.Refused.{error_of};
ghost use Rattle.sigv4_core.specs.Service.{GivesSigned};
ghost use Rattle.sigv4_core.specs.SignedHead.{signing_of};

use crate::{Moment, Payload, SigCredential, SigError, SigScope, sign_head_seeded};
use credentials::{Polled, SignRequest};
use sequential_signer::{DeadlineRule, SigningCredential, operation_end};
use sign_base::{Head, NoMemory, Timestamp};
use sign_request::HeaderSeeds;
use std::alloc::Global;
use std::marker::{Model, PhantomData};
use std::time::Duration;

/// Signs heads by Signature Version 4, for one region and service, each with this word for its
/// payload, at the moment of its context. It answers every poll, and it has no debug form.
#[derive(Drop)]
pub struct SigService<X> {
    scope: SigScope,
    payload: Payload,
    keys: HeaderSeeds,
    context: PhantomData<X>,
}

/// Contracts see what is signed for, and the keys, which change no answer.
impl<X> Model for SigService<X> {
    ghost use Rattle.sigv4_core.specs.Service.{ServiceView};

    ghost Value = { ServiceView };

    ghost view = { λ s. record { scope = s.scope; payload = s.payload; keys = s.keys } };
}

impl<X> SigService<X> {
    pub fn new(scope: SigScope, payload: Payload) -> SigService<X>
        ensures { result ≡ record { scope = scope; payload = payload; keys = no_keys } }
    {
        SigService {
            scope,
            payload,
            keys: HeaderSeeds::default(),
            context: PhantomData,
        }
    }

    /// The service with these keys for the header maps that it makes, where the names of headers come
    /// from outside.
    pub fn with_header_seeds(self, keys: HeaderSeeds) -> SigService<X>
        ensures { result ≡ record self { keys = keys } }
    {
        SigService { keys, ..self }
    }
}

/// The credential has to last to the end of the operation.
impl<X: Moment> DeadlineRule for SigService<X> {
    type Credential = SigCredential;

    ghost deadline = { λ service credential duration now. operation_end duration now };

    fn required_valid_until(
        &self,
        _credential: &SigCredential,
        expires_in: Option<Duration>,
        now: Timestamp,
    ) -> Option<Timestamp> {
        operation_end(expires_in, now)
    }
}

/// A work is a copy of its credential.
impl<X: Moment> SignRequest for SigService<X> {
    type Ctx = X;

    type Work = SigCredential;

    ghost started = { λ service ctx operation work. work ≡ operation.credential };

    ghost ready = { λ service ctx work. ⊤ };

    ghost gives = { λ service ctx operation head outcome. GivesSigned
        (signing_of operation.credential service.scope service.payload (X.moment_of ctx) head) head outcome };

    fn sign_request(
        &self,
        alloc: Global,
        _ctx: &X,
        credential: &SigCredential,
        _expires_in: Option<Duration>,
    ) -> Result<SigCredential, NoMemory<()>> {
        credential.try_clone(alloc)
    }

    fn poll_sign(
        &self,
        alloc: Global,
        ctx: &X,
        work: &mut SigCredential,
        candidate: &mut Head,
    ) -> Polled<()> {
        let now = ctx.moment();
        match sign_head_seeded(
            alloc,
            candidate,
            work,
            &self.scope,
            &self.payload,
            now,
            self.keys,
        ) {
            Ok(signed) => {
                *candidate = signed;
                Polled::Ready(())
            }
            Err(SigError::OutOfMemory) => Polled::OutOfMemory,
            Err(why) => failed(alloc, why),
        }
    }
}

/// The failure for this cause.
fn failed(alloc: Global, why: SigError) -> Polled<()>
    ensures { (result ≡ Polled.Failed (error_of why)) ⊎ (result ≡ Polled.OutOfMemory) }
{
    match why.into_error(alloc) {
        Ok(error) => Polled::Failed(error),
        Err(_) => Polled::OutOfMemory,
    }
}
