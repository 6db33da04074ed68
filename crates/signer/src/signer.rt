//! The signer on one thread: a desk, and the providers, services and contexts that answer it.
//!
//! Contracts see a signer as the record `SignerState`. A call's state is in its caller's hands between
//! polls; `IsIssuedBy` says that this signer issued it.
ghost use Rattle.std.specs.Prelude.{◌≡◌, ◌<◌, Some, None, [], length, OnOk, OnErr, IfOk, IfErr, IfSome};
ghost use Rattle.std.specs.Prelude.{IsSome, option_and_then, option_copied, slice_get, slice_index};
ghost use Rattle.sequential_signer.specs.Policy.{policy_for};
ghost use Rattle.sequential_signer.specs.declared.event.Event.TheVariants.{Cancel};
ghost use Rattle.sequential_signer.specs.declared.event.Reply.TheVariants.{Cancelled};
ghost use Rattle.desk_parts.specs.Adding.{late_refusal, AddAnswer, AddAnswerBack, with_handle, with_rule};
ghost use Rattle.sign_desk.specs.DeskState.{with_cache, Represents};
ghost use Rattle.signer.specs.PollEvents.{IsPoll, polled_call};
ghost use Rattle.signer.specs.IssuedBy.{IsIssuedBy};
ghost use Rattle.signer.specs.SignerCalls.{Begins, RefusesToBegin, KeepsOthers, IsAnswerIssuedBy};
ghost use Rattle.desk_driver.specs.ProviderList.{AreFew, loader_for};
ghost use Rattle.signer.specs.SignerInvariant.{IsNewSigner, with_context_handle, with_service_handle};
ghost use Rattle.signer.specs.SignerInvariant.{with_cache_handle};
ghost use Rattle.signer.specs.SignerObjects.{meanings_of, objects_of};
ghost use Rattle.desk_driver.specs.Objects.{Objects};
ghost use Rattle.sign_desk.specs.Steps.{IsStep};

use crate::call_objects::CallObjects;
use crate::drive::{begin_request, cancel_call};
use crate::drive_call::drive;
use crate::handle_room::{FirstRoom, make_room};
use crate::sign::{Sign, SignState};
use crate::sign_poll::SignPoll;
use credentials::{ProvideCredential, Providers, SignRequest};
use desk_driver::loader_of;
use desk_parts::AddRefused;
use http::request::Parts;
use sequential_signer::{DeadlineRule, SigningCredential};
use sign_base::{CallId, Error, NoMemory, Timestamp};
use sign_desk::Desk;
use sign_request::HeaderSeeds;
use std::alloc::Global;
use std::fmt;
use std::marker::Model;
use std::time::Duration;

const USED_UP: &str = "call numbers are used up";

/// Calls of one thread, each under a handle: a cache with its providers, a context, and a service.
#[derive(Drop)]
pub struct Signer<P, S>
where
    P: ProvideCredential,
    P::Credential: SigningCredential,
    S: SignRequest<Credential = P::Credential, Ctx = P::Ctx>,
{
    pub(crate) alloc: Global,
    pub(crate) keys: HeaderSeeds,
    pub(crate) desk: Desk<P::Credential, S>,
    /// The providers of each cache.
    pub(crate) providers: Vec<Providers<P>>,
    pub(crate) contexts: Vec<P::Ctx>,
    /// The place of each handle's context.
    pub(crate) context_places: Vec<usize>,
    /// The number of calls that were begun, which is the number of the next one.
    pub(crate) begun: u64,
}

impl<P, S> Model for Signer<P, S>
where
    P: ProvideCredential,
    P::Credential: SigningCredential,
    S: SignRequest<Credential = P::Credential, Ctx = P::Ctx>,
{
    ghost use Rattle.signer.specs.SignerInvariant.{SignerState, IsSigner};
    ghost use Rattle.signer.specs.SignerView.{signer_view};

    ghost Value = { SignerState P S P.Credential P.Ctx };

    ghost view = { signer_view };

    ghost invariant = { λ s. IsSigner (signer_view s) };
}

impl<P, S> Signer<P, S>
where
    P: ProvideCredential,
    P::Credential: SigningCredential,
    S: SignRequest<Credential = P::Credential, Ctx = P::Ctx>,
{
    /// A signer with handle 0: an empty cache with these providers, this context and this service.
    ///
    /// Where there is no memory, all three come back.
    pub fn new(
        alloc: Global,
        ctx: P::Ctx,
        loader: Providers<P>,
        builder: S,
    ) -> Result<Self, NoMemory<(P::Ctx, Providers<P>, S)>>
        requires { AreFew loader }
        ensures ok { IfOk result
            (IsNewSigner (policy_for P.Credential.SigningCredential S.DeadlineRule) ctx loader builder) }
        ensures back { IfErr result (λ e. e.back ≡ (ctx, loader, builder)) }
    {
        let loads = loader_of(&loader);
        let Ok(room) = FirstRoom::new(alloc, loads) else {
            return Err(NoMemory {
                back: (ctx, loader, builder),
            });
        };
        let FirstRoom {
            mut desk,
            mut providers,
            mut contexts,
            mut context_places,
        } = room;
        match desk.add_rule_and_handle(0, builder) {
            Ok(_) => {
                providers.push_reserved(loader);
                contexts.push_reserved(ctx);
                context_places.push_reserved(0);
                Ok(Signer {
                    alloc,
                    keys: HeaderSeeds::default(),
                    desk,
                    providers,
                    contexts,
                    context_places,
                    begun: 0,
                })
            }
            Err(refused) => Err(NoMemory {
                back: (ctx, loader, refused.back),
            }),
        }
    }

    /// The signer with these keys for the header maps that its requests get, where the names of headers
    /// come from outside. No answer depends on them.
    pub fn with_header_seeds(self, keys: HeaderSeeds) -> Self
        ensures { result ≡ record self { keys = keys } }
    {
        Signer { keys, ..self }
    }

    /// Adds a handle on the same cache and service as this one, with another context, and returns its
    /// number.
    ///
    /// Errors: `Late` where a call was begun, `OutOfMemory`. An error changes nothing, and hands the
    /// context back.
    pub fn with_context(&mut self, handle: u32, ctx: P::Ctx) -> Result<u32, AddRefused<P::Ctx>>
        requires handle { handle < length self.old.desk.handles }
        requires room { length self.old.desk.handles < 4294967295 }
        ensures answer { AddAnswerBack (late_refusal self.old.desk) (length self.old.desk.handles) result }
        ensures added { OnOk result (IfSome (slice_get self.old.desk.handles handle)
            (λ like. self.new ≡ with_context_handle like ctx self.old)) }
        ensures fresh { OnOk result
            (Represents (policy_for P.Credential.SigningCredential S.DeadlineRule) self.new.desk []) }
        ensures unchanged { IfErr result (λ refused. (refused.back ≡ ctx) × (self.new ≡ self.old)) }
    {
        let like = self.desk.handle_at(handle).unwrap();
        if let Err(why) = make_room(
            &self.desk,
            &mut self.providers,
            &mut self.contexts,
            &mut self.context_places,
        ) {
            return Err(AddRefused { why, back: ctx });
        }
        match self.desk.add_handle(like.cache, like.rule) {
            Ok(number) => {
                self.context_places.push_reserved(self.contexts.len());
                self.contexts.push_reserved(ctx);
                Ok(number)
            }
            Err(why) => Err(AddRefused { why, back: ctx }),
        }
    }

    /// Adds a handle on the same cache and context as this one, with another service, and returns its
    /// number.
    ///
    /// Errors: `Late` where a call was begun, `OutOfMemory`. An error changes nothing, and hands the
    /// service back.
    pub fn with_request_signer(&mut self, handle: u32, builder: S) -> Result<u32, AddRefused<S>>
        requires handle { handle < length self.old.desk.handles }
        requires room { length self.old.desk.handles < 4294967295 }
        ensures answer { AddAnswerBack (late_refusal self.old.desk) (length self.old.desk.handles) result }
        ensures added { OnOk result (IfSome (slice_get self.old.desk.handles handle) (λ like.
            self.new ≡
            with_service_handle like (slice_index self.old.context_places handle) builder self.old)) }
        ensures fresh { OnOk result
            (Represents (policy_for P.Credential.SigningCredential S.DeadlineRule) self.new.desk []) }
        ensures unchanged { IfErr result (λ refused. (refused.back ≡ builder) × (self.new ≡ self.old)) }
    {
        let like = self.desk.handle_at(handle).unwrap();
        let place = self.context_places[handle as usize];
        if let Err(why) = make_room(
            &self.desk,
            &mut self.providers,
            &mut self.contexts,
            &mut self.context_places,
        ) {
            return Err(AddRefused { why, back: builder });
        }
        let number = self.desk.add_rule_and_handle(like.cache, builder)?;
        self.context_places.push_reserved(place);
        Ok(number)
    }

    /// Adds a handle on a new empty cache with these providers, with the context and the service of
    /// this one, and returns its number.
    ///
    /// Errors: `Late` where a call was begun, `OutOfMemory`. An error changes nothing, and hands the
    /// providers back.
    pub fn with_credential_provider(
        &mut self,
        handle: u32,
        loader: Providers<P>,
    ) -> Result<u32, AddRefused<Providers<P>>>
        requires handle { handle < length self.old.desk.handles }
        requires room { length self.old.desk.handles < 4294967295 }
        requires few { AreFew loader }
        ensures answer { AddAnswerBack (late_refusal self.old.desk) (length self.old.desk.handles) result }
        ensures added { OnOk result (IfSome (slice_get self.old.desk.handles handle) (λ like.
            self.new ≡ with_cache_handle like (slice_index self.old.context_places handle) loader self.old)) }
        ensures fresh { OnOk result
            (Represents (policy_for P.Credential.SigningCredential S.DeadlineRule) self.new.desk []) }
        ensures unchanged { IfErr result (λ refused. (refused.back ≡ loader) × (self.new ≡ self.old)) }
    {
        let like = self.desk.handle_at(handle).unwrap();
        let place = self.context_places[handle as usize];
        if let Err(why) = make_room(
            &self.desk,
            &mut self.providers,
            &mut self.contexts,
            &mut self.context_places,
        ) {
            return Err(AddRefused { why, back: loader });
        }
        let loads = loader_of(&loader);
        match self.desk.add_cache_and_handle(loads, like.rule) {
            Ok(number) => {
                self.context_places.push_reserved(place);
                self.providers.push_reserved(loader);
                Ok(number)
            }
            Err(why) => Err(AddRefused { why, back: loader }),
        }
    }

    /// Begins a call under this handle, and hands out its state for `poll`. Nothing is loaded or signed yet,
    /// and the request is only read: the call keeps a copy of its head, so polls hand in the same one.
    ///
    /// The URI has an authority, and is percent-encoded as it is to go out. `expires_in` is for the service
    /// and its deadline: how long what is signed is to hold, where the service asks for that.
    ///
    /// The caller polls the state until the call is over, or hands it to `cancel`. A state that is dropped
    /// leaves the calls of its cache behind it waiting.
    ///
    /// Errors: `RequestInvalid` where the version of the request is unknown, or where
    /// 18,446,744,073,709,551,615 calls were begun; `OutOfMemory` where an allocation failed. An error
    /// begins nothing.
    pub fn sign(
        &mut self,
        handle: u32,
        req: &Parts,
        expires_in: Option<Duration>,
    ) -> Result<Sign<P, S>, Error>
        requires { handle < length self.old.desk.handles }
        ensures ok { IfOk result
            (λ sign. (sign.begun.id.handle ≡ handle) × (sign.begun.expires_in ≡ expires_in)
            × Begins (meanings_of P.ProvideCredential S.SignRequest.own)
            (policy_for P.Credential.SigningCredential S.DeadlineRule)
            (record { old = self.old; new = self.new }) req.now sign) }
        ensures err { IfErr result (RefusesToBegin req.now self.old.begun) }
        ensures unchanged { OnErr result (self.new ≡ self.old) }
    {
        if self.begun == u64::MAX {
            return Err(Error::request_invalid(self.alloc, USED_UP)?);
        }
        let id = CallId {
            handle,
            number: self.begun,
        };
        let call = begin_request(&mut self.desk, self.alloc, id, req, expires_in)?;
        self.begun += 1;
        Ok(Sign {
            begun: call.0,
            state: SignState::Waiting(call.1),
        })
    }

    /// Goes on with a call, as far as its objects answer now: it looks at the cache, polls the provider that
    /// is asked, and then the service. It does not block. `req` is the request with which the call was
    /// begun, and `now` the moment of the poll, by which it is judged what a credential is good for.
    ///
    /// - `Pending`: poll again when a `wake` names the call, or when its provider or its service may have
    ///   answered. An earlier poll does no harm.
    /// - `Done`: the request has the signed URI and headers, and the method, version and extensions that it
    ///   had. Send it.
    /// - `Refused`: the call is over; `into_error` makes an error of the cause.
    /// - `OutOfMemory`: poll again when there may be memory. What was answered before is kept.
    ///
    /// But for `Done` the request is as it was. A poll that comes to sign, or that is refused, ends its
    /// call's hold of the cache, and `wake` names the call whose turn that makes it: poll that one next, also
    /// where this one is `Pending` or `OutOfMemory`.
    ///
    /// ```text
    /// let sign = signer.sign(0, &req, None)?;
    /// let SignPoll { answer, wake } = signer.poll(sign, &mut req, now);
    /// match answer {
    ///     SignAnswer::Done => send(req),
    ///     SignAnswer::Refused(why) => return Err(why.into_error(alloc, Key::NAME)?),
    ///     SignAnswer::Pending(sign) | SignAnswer::OutOfMemory(sign) => later.push(sign)?,
    /// }
    /// ```
    ///
    /// `told_call` of `signer_tests` drives one call so, and `eight_calls_sign_with_one_load` eight.
    pub fn poll(&mut self, sign: Sign<P, S>, req: &mut Parts, now: Timestamp) -> SignPoll<P, S>
        requires { IsIssuedBy (meanings_of P.ProvideCredential S.SignRequest.own) self.old sign }
        ensures poll { (o : Objects P S P.Ctx) → objects_of self.old sign.begun.id.handle ≡ Some o
            → IsPoll
            (polled_call (policy_for P.Credential.SigningCredential S.DeadlineRule)
            P.Credential.clones_freely (meanings_of P.ProvideCredential S.SignRequest.own)
            o sign.begun now)
            sign.state self.old.desk self.new.desk
            (record { poll = result; before = req.old; after = req.new }) }
        ensures issued { IsAnswerIssuedBy (meanings_of P.ProvideCredential S.SignRequest.own)
            self.new sign.begun.id result.answer }
        ensures same { self.new ≡ record self.old { desk = self.new.desk } }
        ensures others { KeepsOthers (meanings_of P.ProvideCredential S.SignRequest.own) sign.begun.id
            (record { old = self.old; new = self.new }) }
    {
        let handle = sign.begun.id.handle;
        let cache = self.desk.cache_of(handle).unwrap();
        let place = self.context_places[handle as usize];
        let objects = CallObjects {
            alloc: self.alloc,
            providers: &self.providers[cache as usize],
            ctx: &self.contexts[place],
            keys: self.keys,
        };
        drive(&mut self.desk, &objects, sign, req, now)
    }

    /// Gives a call up, and names the call that has its turn by this, which the caller polls next. It takes
    /// no memory.
    pub fn cancel(&mut self, sign: Sign<P, S>) -> Option<CallId>
        requires { IsIssuedBy (meanings_of P.ProvideCredential S.SignRequest.own) self.old sign }
        ensures step { IsStep (policy_for P.Credential.SigningCredential S.DeadlineRule)
            (Cancel sign.begun.id) self.old.desk (Cancelled result) self.new.desk }
        ensures same { self.new ≡ record self.old { desk = self.new.desk } }
        ensures others { KeepsOthers (meanings_of P.ProvideCredential S.SignRequest.own) sign.begun.id
            (record { old = self.old; new = self.new }) }
    {
        let wake = cancel_call(&mut self.desk, &sign.begun);
        drop(sign);
        wake
    }

    /// The desk that the signer drives.
    pub fn desk(&self) -> &Desk<P::Credential, S>
        ensures { result.now ≡ self.now.desk }
    {
        &self.desk
    }
}

/// Shows the type of the credentials, and neither a credential nor a head.
impl<P, S> fmt::Debug for Signer<P, S>
where
    P: ProvideCredential,
    P::Credential: SigningCredential,
    S: SignRequest<Credential = P::Credential, Ctx = P::Ctx>,
{
    fn fmt<W: fmt::Write>(&self, f: &mut fmt::Formatter<W>) -> fmt::Result {
        let mut parts = f.debug_struct("Signer");
        parts.field("credential", &P::Credential::NAME);
        parts.finish()
    }
}
