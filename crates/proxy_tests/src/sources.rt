//! Providers: of sessions that last three seconds, and one that never answers. Each counts, by its context.
ghost use Rattle.std.specs.Prelude.{⊤};

use crate::proxy_clock::Counter;
use aws_credentials::{SessionCredential, SigningClock};
use credentials::{Polled, ProvideCredential};
use sign_base::{Error, NoMemory, Timestamp};
use sigv4_core::SigCredential;
use std::alloc::Global;
use std::marker::PhantomData;
use std::time::Duration;

/// Finds, at the third poll, a key of which the session begins at the moment of that poll, and has that
/// moment as its token. It counts the loads.
#[derive(Drop)]
pub struct ShortSessions<X> {
    pub works_in: PhantomData<X>,
}

impl<X: SigningClock + Counter> ProvideCredential for ShortSessions<X> {
    type Credential = SessionCredential;

    type Ctx = X;

    type Load = u64;

    ghost started = { λ provider ctx load. ⊤ };

    ghost ready = { λ provider ctx load. ⊥ };

    ghost gives = { λ provider ctx answer. ⊤ };

    fn provide_credential(&self, _alloc: Global, ctx: &X) -> Result<u64, NoMemory<()>> {
        ctx.count();
        Ok(0)
    }

    fn poll_load(
        &self,
        alloc: Global,
        ctx: &X,
        load: &mut u64,
    ) -> Polled<Option<SessionCredential>> {
        if *load < 2 {
            *load += 1;
            return Polled::Pending;
        }
        match short_session(alloc, ctx.moment()) {
            Ok(session) => Polled::Ready(Some(session)),
            Err(error) => Polled::Failed(error),
        }
    }
}

fn short_session(alloc: Global, now: Timestamp) -> Result<SessionCredential, Error> {
    let secret = b"wJalrXUtnFEMI/K7MDENG+bPxRfiCYEXAMPLEKEY";
    let end = now.checked_add(Duration::from_secs(3));
    let key = SigCredential::new(alloc, b"AKIDEXAMPLE", secret, end)?;
    let nanos = now.as_nanos();
    let token = format!(in alloc; "of{nanos}").map_err(|_| Error::out_of_memory())?;
    SessionCredential::with_token(alloc, key, token.as_bytes())
}

/// Never answers. It counts the polls.
#[derive(Drop)]
pub struct Silent<X> {
    pub works_in: PhantomData<X>,
}

impl<X: SigningClock + Counter> ProvideCredential for Silent<X> {
    type Credential = SessionCredential;

    type Ctx = X;

    type Load = ();

    ghost started = { λ provider ctx load. ⊤ };

    ghost ready = { λ provider ctx load. ⊥ };

    ghost gives = { λ provider ctx answer. ⊤ };

    fn provide_credential(&self, _alloc: Global, _ctx: &X) -> Result<(), NoMemory<()>> {
        Ok(())
    }

    fn poll_load(
        &self,
        _alloc: Global,
        ctx: &X,
        _load: &mut (),
    ) -> Polled<Option<SessionCredential>> {
        ctx.count();
        Polled::Pending
    }
}
