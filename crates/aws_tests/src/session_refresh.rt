//! A signer whose credential lasts for three seconds: each session signs with its own token, and each
//! signature is of the moment of its poll. The signatures are those of Python's `hmac`.
ghost use Rattle.std.specs.Prelude.{⊤};

use crate::suite::{NOW, PLAIN, moment};
use crate::told::{header_of, is_text, request};
use aws_credentials::{PollClock, SessionCredential, SigningClock};
use aws_service::{AwsService, ContentRule, LeftOut, sign_now};
use credentials::{Polled, ProvideCredential, Providers};
use http::request::Parts;
use sign_base::{Error, ErrorKind, NoMemory, Timestamp};
use signer::Signer;
use sigv4_core::{Payload, SigCredential, SigScope};
use std::alloc::Global;
use std::process::Abort;
use std::time::Duration;

/// Finds a key of which the session begins at the moment of the load, and has that moment as its token.
#[derive(Drop)]
pub(crate) struct ShortSessions;

impl ProvideCredential for ShortSessions {
    type Credential = SessionCredential;

    type Ctx = PollClock;

    type Load = ();

    ghost started = { λ provider clock load. ⊤ };

    ghost ready = { λ provider clock load. ⊤ };

    ghost gives = { λ provider clock answer. ⊤ };

    fn provide_credential(&self, _alloc: Global, _ctx: &PollClock) -> Result<(), NoMemory<()>> {
        Ok(())
    }

    fn poll_load(
        &self,
        alloc: Global,
        ctx: &PollClock,
        _load: &mut (),
    ) -> Polled<Option<SessionCredential>> {
        match short_session(alloc, ctx.moment()) {
            Ok(session) => Polled::Ready(Some(session)),
            Err(error) if error.kind() == ErrorKind::OutOfMemory => Polled::OutOfMemory,
            Err(error) => Polled::Failed(error),
        }
    }
}

fn short_session(alloc: Global, now: Timestamp) -> Result<SessionCredential, Error> {
    let secret = b"wJalrXUtnFEMI/K7MDENG+bPxRfiCYEXAMPLEKEY";
    let end = now.checked_add(Duration::from_secs(3));
    let key = SigCredential::new(alloc, b"AKIDEXAMPLE", secret, end)?;
    let nanos = now.as_nanos();
    let token = format!(in alloc; "of{nanos}").map_err(|_| Error::out_of_memory())?;
    SessionCredential::with_token(alloc, key, token.as_bytes())
}

pub(crate) type ShortSigner = Signer<ShortSessions, AwsService<PollClock>>;

/// In a box it is one value to whoever proves where it is dropped.
pub(crate) fn short_signer(alloc: Global, clock: &PollClock) -> Option<Box<ShortSigner>> {
    let service = suite_service(alloc).ok()?;
    let context = clock.share().ok()?;
    let signer = Signer::new(alloc, context, Providers::Single(ShortSessions), service);
    Box::new(alloc, signer.ok()?).ok()
}

fn suite_service(alloc: Global) -> Result<AwsService<PollClock>, Error> {
    Ok(AwsService::new(
        SigScope::new(alloc, b"us-east-1", b"service")?,
        Payload::of(alloc, b"")?,
        ContentRule::Unstated,
        LeftOut::none(alloc),
    ))
}

/// The seconds from the suite's moment on, and the token and the signature of the request then.
pub(crate) static CALLS: [(u8, &str); 7] = [
    (
        0,
        "of1440938160000000000 3f7da11c21969b756f8442ac4331ea808860def8f9f36757edcdfcb463dbbcea",
    ),
    (
        1,
        "of1440938160000000000 79e5a62a250bd6f90fc94dc74beec388e393b4dae62dd4ad6a0b078163fba704",
    ),
    (
        2,
        "of1440938160000000000 1e658e15c7f152d60299fbfa646ece42a7d55096942f512b4426f0e2f0ed54dc",
    ),
    (
        3,
        "of1440938163000000000 02124ea0218b76a6fb4fb5a2695e8716ea42ebff9c8a6e9f6c87363a28d002e4",
    ),
    (
        5,
        "of1440938163000000000 c366f0545ac1693253203f95822247c4d6fa6900b9006df2bc2085e34ae4a382",
    ),
    (
        6,
        "of1440938166000000000 cf1f69a9dfabc710622e9998f67acb4585a914b448e64064db14f93b1ef22e53",
    ),
    (
        9,
        "of1440938169000000000 ca394c74f90e0cf20e5fcc2f73c29e6b064c38f26e65c24a6c181a6b77abbf7a",
    ),
];

#[test]
fn each_session_signs_with_its_own_token(rt: HostRuntime) {
    let clock = PollClock::new(rt.alloc(), moment(&rt, NOW)).expect(&rt, "memory");
    let mut signer = short_signer(rt.alloc(), &clock).expect(&rt, "memory");
    let mut req = request(&rt, rt.alloc(), PLAIN, &[]);
    are_signed(&rt, rt.alloc(), &clock, &mut signer, &mut req);
    drop(req);
    drop(signer);
    drop(clock);
}

fn are_signed(
    rt: &impl Abort,
    alloc: Global,
    clock: &PollClock,
    signer: &mut ShortSigner,
    req: &mut Parts,
) {
    for (second, wanted) in &CALLS {
        let now = moment(rt, NOW + i128::from(*second) * 1_000_000_000);
        clock.set(now);
        is_text(rt, signed(rt, alloc, signer, req, now), *wanted);
    }
}

/// What is told of the request, signed at this moment.
fn signed(
    rt: &impl Abort,
    alloc: Global,
    signer: &mut ShortSigner,
    req: &mut Parts,
    now: Timestamp,
) -> String {
    assert!(rt; signer.desk().handles() > 0);
    sign_now(alloc, signer, 0, req, None, now).expect(rt, "a signed request");
    told(rt, alloc, req)
}

/// The token and the signature of a request.
fn told(rt: &impl Abort, alloc: Global, req: &Parts) -> String {
    let token = header_of(rt, req, "x-amz-security-token");
    let authorization = header_of(rt, req, "authorization");
    let (_, signature) = authorization
        .split_once("Signature=")
        .expect(rt, "a signature");
    format!(in alloc; "{token} {signature}").expect(rt, "memory")
}
