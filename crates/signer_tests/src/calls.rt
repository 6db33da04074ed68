//! A signer with the calls that it has begun. It keeps their states, so that a call is polled by its
//! number, and whoever polls it has nothing to prove.
ghost use Rattle.std.specs.Prelude.{◌≡◌, ◌<◌, IfSome, slice_get, slice_set};
ghost use Rattle.std.specs.Vec.{vec_len};
ghost use Rattle.signer.specs.CallsOf.{state_back};

use credentials::{ProvideCredential, SignRequest};
use http::request::Parts;
use sequential_signer::SigningCredential;
use sign_base::{CallId, Error, Timestamp};
use signer::{Refusal, Sign, SignAnswer, SignPoll, Signer};
use std::alloc::Global;
use std::marker::Model;
use std::time::Duration;

/// A signer and the state of each call, at the place of its number. A call that is over has none.
#[derive(Drop)]
pub(crate) struct Calls<P, S>
where
    P: ProvideCredential,
    P::Credential: SigningCredential,
    S: SignRequest<Credential = P::Credential, Ctx = P::Ctx>,
{
    signer: Signer<P, S>,
    states: Vec<Option<Sign<P, S>>>,
}

/// Contracts see the number of calls that were begun.
impl<P, S> Model for Calls<P, S>
where
    P: ProvideCredential,
    P::Credential: SigningCredential,
    S: SignRequest<Credential = P::Credential, Ctx = P::Ctx>,
{
    ghost use Rattle.std.specs.Prelude.{ℕ, length};
    ghost use Rattle.signer.specs.SignerObjects.{meanings_of};
    ghost use Rattle.signer.specs.CallsOf.{AreCallsOf};

    ghost Value = { ℕ };

    ghost view = { λ calls. length calls.states.items };

    ghost invariant = { λ calls.
        AreCallsOf (meanings_of P.ProvideCredential S.SignRequest) calls.signer calls.states.items };
}

/// How far a call is after a poll.
#[derive(Drop)]
pub(crate) enum CallAnswer {
    Pending,
    Done,
    Refused(Refusal),
    OutOfMemory,
}

/// The answer of a poll, and the number of the call that has its turn by it.
#[derive(Drop)]
pub(crate) struct CallPoll {
    pub(crate) answer: CallAnswer,
    pub(crate) wake: Option<usize>,
}

impl<P, S> Calls<P, S>
where
    P: ProvideCredential,
    P::Credential: SigningCredential,
    S: SignRequest<Credential = P::Credential, Ctx = P::Ctx>,
{
    /// The calls of a signer that has begun none.
    pub(crate) fn new(alloc: Global, signer: Signer<P, S>) -> Self
        requires { signer.begun ≡ 0 }
    {
        Calls {
            signer,
            states: Vec::new(alloc),
        }
    }

    /// Begins a call under this handle, and returns its number.
    pub(crate) fn begin(
        &mut self,
        alloc: Global,
        handle: u32,
        req: &Parts,
        expires_in: Option<Duration>,
    ) -> Result<usize, Error> {
        if handle >= self.signer.desk().handles() {
            return Err(Error::request_invalid(alloc, "no such handle")?);
        }
        let Ok(()) = self.states.reserve(1) else {
            return Err(Error::out_of_memory());
        };
        let sign = self.signer.sign(handle, req, expires_in)?;
        self.states.push_reserved(Some(sign));
        Ok(self.states.len() - 1)
    }

    /// Polls the call of this number. None where it is over, or there is none of this number.
    pub(crate) fn poll(
        &mut self,
        number: usize,
        req: &mut Parts,
        now: Timestamp,
    ) -> Option<CallPoll> {
        let sign = taken(&mut self.states, number)?;
        let SignPoll { answer, wake } = self.signer.poll(sign, req, now);
        let (answer, state) = parts_of_answer(answer);
        put(&mut self.states, number, state);
        Some(CallPoll {
            answer,
            wake: number_of(wake),
        })
    }

    /// Gives the call of this number up, and returns the number of the call that has its turn by this.
    pub(crate) fn cancel(&mut self, number: usize) -> Option<usize> {
        let sign = taken(&mut self.states, number)?;
        number_of(self.signer.cancel(sign))
    }
}

/// The number of a call, which is its place.
fn number_of(call: Option<CallId>) -> Option<usize> {
    match call {
        Some(call) => Some(call.number as usize),
        None => None,
    }
}

/// The state of the call of this number, which leaves none at its place.
fn taken<T>(states: &mut Vec<Option<T>>, number: usize) -> Option<T>
    ensures there { IfSome result (λ _. number < vec_len states.new) }
    ensures some { IfSome result (λ state. slice_get states.old.items number ≡ Some (Some state)) }
    ensures left { states.new.items ≡ slice_set states.old.items number None }
{
    if number >= states.len() {
        return None;
    }
    std::mem::replace(&mut states[number], None)
}

/// Puts a state, or none, at the place of this number.
fn put<T: Drop>(states: &mut Vec<Option<T>>, number: usize, state: Option<T>)
    requires { number < vec_len states.old }
    ensures { states.new.items ≡ slice_set states.old.items number state }
{
    states[number] = state;
}

/// What is told of an answer, and the state that it hands back.
fn parts_of_answer<P, S>(answer: SignAnswer<P, S>) -> (CallAnswer, Option<Sign<P, S>>)
where
    P: ProvideCredential,
    S: SignRequest<Credential = P::Credential, Ctx = P::Ctx>,
    ensures { result.1 ≡ state_back answer }
{
    match answer {
        SignAnswer::Pending(sign) => (CallAnswer::Pending, Some(sign)),
        SignAnswer::Done => (CallAnswer::Done, None),
        SignAnswer::Refused(why) => (CallAnswer::Refused(why), None),
        SignAnswer::OutOfMemory(sign) => (CallAnswer::OutOfMemory, Some(sign)),
    }
}
