//! A provider that finds a credential at once, and a service that leaves the head as it is.
ghost use Rattle.std.specs.Prelude.{⊤};
ghost use Rattle.sequential_signer.specs.Deadline.{operation_end};

use credentials::{Polled, ProvideCredential, SignRequest};
use fixtures::Key;
use sequential_signer::{DeadlineRule, operation_end};
use sign_base::{Head, NoMemory, Timestamp};
use std::alloc::Global;
use std::time::Duration;

#[derive(Clone, Copy, Debug)]
pub(crate) struct Finds;

impl ProvideCredential for Finds {
    type Credential = Key;

    type Ctx = ();

    type Load = ();

    ghost started = { λ provider ctx load. ⊤ };

    ghost ready = { λ provider ctx load. ⊥ };

    ghost gives = { λ provider ctx answer. ⊤ };

    fn provide_credential(&self, _alloc: Global, _ctx: &()) -> Result<(), NoMemory<()>> {
        Ok(())
    }

    fn poll_load(&self, _alloc: Global, _ctx: &(), _load: &mut ()) -> Polled<Option<Key>> {
        Polled::Ready(Some(Key { number: 0 }))
    }
}

#[derive(Clone, Copy, Debug)]
pub(crate) struct LeavesHeads;

impl DeadlineRule for LeavesHeads {
    type Credential = Key;

    ghost deadline = { λ service key duration now. operation_end duration now };

    fn required_valid_until(
        &self,
        _credential: &Key,
        expires_in: Option<Duration>,
        now: Timestamp,
    ) -> Option<Timestamp> {
        operation_end(expires_in, now)
    }
}

impl SignRequest for LeavesHeads {
    type Ctx = ();

    type Work = ();

    ghost started = { λ service ctx operation work. ⊤ };

    ghost ready = { λ service ctx work. ⊥ };

    ghost gives = { λ service ctx operation head outcome. ⊤ };

    fn sign_request(
        &self,
        _alloc: Global,
        _ctx: &(),
        _credential: &Key,
        _expires_in: Option<Duration>,
    ) -> Result<(), NoMemory<()>> {
        Ok(())
    }

    fn poll_sign(
        &self,
        _alloc: Global,
        _ctx: &(),
        _work: &mut (),
        _candidate: &mut Head,
    ) -> Polled<()> {
        Polled::Ready(())
    }
}
