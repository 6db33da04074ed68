//! The granter on one thread: a desk, and the providers, granting services and contexts that answer it.
//!
//! Contracts see a granter as the record `GranterState`. A call's state is in its caller's hands between
//! polls; `IsGrantIssuedBy` says that this granter issued it.
ghost use Rattle.std.specs.Prelude.{◌≡◌, ◌<◌, Some, [], length, OnOk, OnErr, IfOk, IfErr, IfSome, slice_get};
ghost use Rattle.std.specs.Prelude.{slice_index};
ghost use Rattle.sequential_signer.specs.Policy.{policy_for};
ghost use Rattle.sequential_signer.specs.declared.grant_event.GrantEvent.TheVariants.{Cancel};
ghost use Rattle.sequential_signer.specs.declared.grant_event.GrantReply.TheVariants.{Cancelled};
ghost use Rattle.desk_parts.specs.Adding.{late_refusal, AddAnswerBack};
ghost use Rattle.desk_driver.specs.ProviderList.{AreFew};
ghost use Rattle.grant_desk.specs.GrantDeskState.{GrantRepresents};
ghost use Rattle.grant_desk.specs.GrantSteps.{IsGrantStep};
ghost use Rattle.granter.specs.PollEvents.{IsGrantPoll, polled_call};
ghost use Rattle.granter.specs.IssuedBy.{IsGrantIssuedBy};
ghost use Rattle.granter.specs.GranterCalls.{Begins, RefusesToBegin, KeepsOthers, IsAnswerIssuedBy};
ghost use Rattle.granter.specs.GranterInvariant.{IsNewGranter, with_context_handle, with_service_handle};
ghost use Rattle.granter.specs.GranterInvariant.{with_cache_handle};
ghost use Rattle.granter.specs.GranterObjects.{meanings_of, objects_of};
ghost use Rattle.desk_driver.specs.Objects.{Objects};

use crate::call_objects::CallObjects;
use crate::drive::{begin_call, cancel_call};
use crate::drive_call::drive;
use crate::grant::{CallState, Grant};
use crate::grant_poll::GrantPoll;
use crate::handle_room::{FirstRoom, make_room};
use credentials::{GrantCredential, ProvideCredential, Providers};
use desk_driver::{BegunCall, loader_of};
use desk_parts::AddRefused;
use grant_desk::GrantDesk;
use sequential_signer::SigningCredential;
use sign_base::{CallId, Error, NoMemory, Timestamp};
use std::alloc::Global;
use std::fmt;
use std::marker::Model;
use std::time::Duration;

const USED_UP: &str = "call numbers are used up";

/// Calls of one thread, each under a handle: a cache with its providers, a context, and a granting service.
#[derive(Drop)]
pub struct Granter<P, G>
where
    P: ProvideCredential,
    P::Credential: SigningCredential,
    G: GrantCredential<Credential = P::Credential, Ctx = P::Ctx>,
{
    pub(crate) alloc: Global,
    pub(crate) desk: GrantDesk<P::Credential, G>,
    pub(crate) providers: Vec<Providers<P>>,
    /// The place of each cache's providers.
    pub(crate) provider_places: Vec<usize>,
    pub(crate) contexts: Vec<P::Ctx>,
    /// The place of each handle's context.
    pub(crate) context_places: Vec<usize>,
    /// The number of calls that were begun, which is the number of the next one.
    pub(crate) begun: u64,
}

impl<P, G> Model for Granter<P, G>
where
    P: ProvideCredential,
    P::Credential: SigningCredential,
    G: GrantCredential<Credential = P::Credential, Ctx = P::Ctx>,
{
    ghost use Rattle.granter.specs.GranterInvariant.{GranterState, IsGranter};
    ghost use Rattle.granter.specs.GranterView.{granter_view};

    ghost Value = { GranterState P G P.Credential P.Ctx };

    ghost view = { granter_view };

    ghost invariant = { λ s. IsGranter (granter_view s) };
}

impl<P, G> Granter<P, G>
where
    P: ProvideCredential,
    P::Credential: SigningCredential,
    G: GrantCredential<Credential = P::Credential, Ctx = P::Ctx>,
{
    /// A granter with handle 0: an empty cache with these providers, this context and this granting service.
    ///
    /// Where there is no memory, all three come back.
    pub fn new(
        alloc: Global,
        ctx: P::Ctx,
        loader: Providers<P>,
        granter: G,
    ) -> Result<Self, NoMemory<(P::Ctx, Providers<P>, G)>>
        requires { AreFew loader }
        ensures ok { IfOk result (IsNewGranter (policy_for P.Credential.SigningCredential G.DeadlineRule)
            ctx loader granter) }
        ensures back { IfErr result (λ e. e.back ≡ (ctx, loader, granter)) }
    {
        let loads = loader_of(&loader);
        let Ok(room) = FirstRoom::new(alloc, loads) else {
            return Err(NoMemory {
                back: (ctx, loader, granter),
            });
        };
        let FirstRoom {
            mut desk,
            mut providers,
            mut provider_places,
            mut contexts,
            mut context_places,
        } = room;
        match desk.add_rule_and_handle(0, granter) {
            Ok(_) => {
                providers.push_reserved(loader);
                provider_places.push_reserved(0);
                contexts.push_reserved(ctx);
                context_places.push_reserved(0);
                Ok(Granter {
                    alloc,
                    desk,
                    providers,
                    provider_places,
                    contexts,
                    context_places,
                    begun: 0,
                })
            }
            Err(refused) => Err(NoMemory {
                back: (ctx, loader, refused.back),
            }),
        }
    }

    /// Adds a handle on a new empty cache, with the providers and the granting service of this one and
    /// another context, and returns its number.
    ///
    /// Errors: `Late` where a call was begun, `OutOfMemory`. An error changes nothing, and hands the
    /// context back.
    pub fn with_context(&mut self, handle: u32, ctx: P::Ctx) -> Result<u32, AddRefused<P::Ctx>>
        requires handle { handle < length self.old.desk.handles }
        requires room { length self.old.desk.handles < 4294967295 }
        ensures answer { AddAnswerBack (late_refusal self.old.desk) (length self.old.desk.handles) result }
        ensures added { OnOk result (IfSome (slice_get self.old.desk.handles handle) (λ like.
            IfSome (slice_get self.old.desk.loaders like.cache) (λ loads.
            self.new ≡ with_context_handle like loads
            (slice_index self.old.provider_places like.cache) ctx self.old))) }
        ensures fresh { OnOk result (GrantRepresents
            (policy_for P.Credential.SigningCredential G.DeadlineRule) self.new.desk []) }
        ensures unchanged { IfErr result (λ refused. (refused.back ≡ ctx) × (self.new ≡ self.old)) }
    {
        let like = self.desk.handle_at(handle).unwrap();
        let place = self.provider_places[like.cache as usize];
        if let Err(why) = make_room(
            &self.desk,
            &mut self.providers,
            &mut self.provider_places,
            &mut self.contexts,
            &mut self.context_places,
        ) {
            return Err(AddRefused { why, back: ctx });
        }
        let loads = loader_of(&self.providers[place]);
        match self.desk.add_cache_and_handle(loads, like.rule) {
            Ok(number) => {
                self.provider_places.push_reserved(place);
                self.context_places.push_reserved(self.contexts.len());
                self.contexts.push_reserved(ctx);
                Ok(number)
            }
            Err(why) => Err(AddRefused { why, back: ctx }),
        }
    }

    /// Adds a handle on a new empty cache with these providers, with the context and the granting service
    /// of this one, and returns its number.
    ///
    /// Errors: `Late` where a call was begun, `OutOfMemory`. An error changes nothing, and hands the
    /// providers back.
    pub fn with_credential_provider(
        &mut self,
        handle: u32,
        loader: Providers<P>,
    ) -> Result<u32, AddRefused<Providers<P>>>
        requires handle { handle < length self.old.desk.handles }
        requires room { length self.old.desk.handles < 4294967295 }
        requires few { AreFew loader }
        ensures answer { AddAnswerBack (late_refusal self.old.desk) (length self.old.desk.handles) result }
        ensures added { OnOk result (IfSome (slice_get self.old.desk.handles handle) (λ like.
            self.new ≡ with_cache_handle like (slice_index self.old.context_places handle) loader self.old)) }
        ensures fresh { OnOk result (GrantRepresents
            (policy_for P.Credential.SigningCredential G.DeadlineRule) self.new.desk []) }
        ensures unchanged { IfErr result (λ refused. (refused.back ≡ loader) × (self.new ≡ self.old)) }
    {
        let like = self.desk.handle_at(handle).unwrap();
        let place = self.context_places[handle as usize];
        if let Err(why) = make_room(
            &self.desk,
            &mut self.providers,
            &mut self.provider_places,
            &mut self.contexts,
            &mut self.context_places,
        ) {
            return Err(AddRefused { why, back: loader });
        }
        let loads = loader_of(&loader);
        match self.desk.add_cache_and_handle(loads, like.rule) {
            Ok(number) => {
                self.provider_places.push_reserved(self.providers.len());
                self.providers.push_reserved(loader);
                self.context_places.push_reserved(place);
                Ok(number)
            }
            Err(why) => Err(AddRefused { why, back: loader }),
        }
    }

    /// Adds a handle on the same cache and context as this one, with another granting service, and returns
    /// its number.
    ///
    /// Errors: `Late` where a call was begun, `OutOfMemory`. An error changes nothing, and hands the
    /// service back.
    pub fn with_credential_granter(&mut self, handle: u32, granter: G) -> Result<u32, AddRefused<G>>
        requires handle { handle < length self.old.desk.handles }
        requires room { length self.old.desk.handles < 4294967295 }
        ensures answer { AddAnswerBack (late_refusal self.old.desk) (length self.old.desk.handles) result }
        ensures added { OnOk result (IfSome (slice_get self.old.desk.handles handle) (λ like.
            self.new ≡
            with_service_handle like (slice_index self.old.context_places handle) granter self.old)) }
        ensures fresh { OnOk result (GrantRepresents
            (policy_for P.Credential.SigningCredential G.DeadlineRule) self.new.desk []) }
        ensures unchanged { IfErr result (λ refused. (refused.back ≡ granter) × (self.new ≡ self.old)) }
    {
        let like = self.desk.handle_at(handle).unwrap();
        let place = self.context_places[handle as usize];
        if let Err(why) = make_room(
            &self.desk,
            &mut self.providers,
            &mut self.provider_places,
            &mut self.contexts,
            &mut self.context_places,
        ) {
            return Err(AddRefused { why, back: granter });
        }
        let number = self.desk.add_rule_and_handle(like.cache, granter)?;
        self.context_places.push_reserved(place);
        Ok(number)
    }

    /// Begins a call under this handle, and hands out its state for `poll`. Nothing is loaded or granted yet.
    /// `expires_in` is for the service and its deadline: how long the credential is to hold, where the
    /// service asks for that.
    ///
    /// The caller polls the state until the call is over, or hands it to `cancel`.
    ///
    /// Errors: `RequestInvalid` where 18,446,744,073,709,551,615 calls were begun; `OutOfMemory` where an
    /// allocation failed. An error begins nothing.
    pub fn grant(&mut self, handle: u32, expires_in: Option<Duration>) -> Result<Grant<P, G>, Error>
        requires { handle < length self.old.desk.handles }
        ensures ok { IfOk result
            (λ grant. (grant.begun.id.handle ≡ handle) × (grant.begun.expires_in ≡ expires_in)
            × Begins (meanings_of P.ProvideCredential G.GrantCredential.own)
            (policy_for P.Credential.SigningCredential G.DeadlineRule)
            (record { old = self.old; new = self.new }) grant) }
        ensures err { IfErr result (RefusesToBegin self.old.begun) }
        ensures unchanged { OnErr result (self.new ≡ self.old) }
    {
        if self.begun == u64::MAX {
            return Err(Error::request_invalid(self.alloc, USED_UP)?);
        }
        let id = CallId {
            handle,
            number: self.begun,
        };
        begin_call(&mut self.desk, id, expires_in)?;
        self.begun += 1;
        let begun = BegunCall {
            id,
            head: (),
            expires_in,
        };
        Ok(Grant {
            begun,
            state: CallState::Waiting,
        })
    }

    /// Goes on with a call, as far as its objects answer now: it looks at the cache, polls the provider that
    /// is asked, and then the service. It does not block. `now` is the moment of the poll, by which it is
    /// judged what a source and a granted credential are good for.
    ///
    /// - `Pending`: poll again when its provider or its service may have answered. An earlier poll does no
    ///   harm.
    /// - `Given`: the credential that the service made. The granter keeps none of it.
    /// - `Refused`: the call is over; `into_error` makes an error of the cause.
    /// - `OutOfMemory`: poll again when there may be memory. What was answered before is kept.
    ///
    /// ```text
    /// let grant = granter.grant(0, None)?;
    /// match granter.poll(grant, now) {
    ///     GrantPoll::Given(credential) => hand_out(credential),
    ///     GrantPoll::Refused(why) => return Err(why.into_error(alloc, Key::NAME)?),
    ///     GrantPoll::Pending(grant) | GrantPoll::OutOfMemory(grant) => later.push(grant)?,
    /// }
    /// ```
    ///
    /// `poll_thrice` of `signer_tests` drives a call so.
    pub fn poll(&mut self, grant: Grant<P, G>, now: Timestamp) -> GrantPoll<P, G>
        requires { IsGrantIssuedBy (meanings_of P.ProvideCredential G.GrantCredential.own) self.old grant }
        ensures poll { (o : Objects P G P.Ctx) → objects_of self.old grant.begun.id.handle ≡ Some o
            → IsGrantPoll
            (polled_call (policy_for P.Credential.SigningCredential G.DeadlineRule)
            P.Credential.clones_freely (meanings_of P.ProvideCredential G.GrantCredential.own)
            o grant.begun now)
            grant.state self.old.desk self.new.desk result }
        ensures issued { IsAnswerIssuedBy (meanings_of P.ProvideCredential G.GrantCredential.own)
            self.new grant.begun.id result }
        ensures same { self.new ≡ record self.old { desk = self.new.desk } }
        ensures others { KeepsOthers (meanings_of P.ProvideCredential G.GrantCredential.own) grant.begun.id
            (record { old = self.old; new = self.new }) }
    {
        let handle = grant.begun.id.handle;
        let cache = self.desk.cache_of(handle).unwrap();
        let provider_place = self.provider_places[cache as usize];
        let place = self.context_places[handle as usize];
        let objects = CallObjects {
            alloc: self.alloc,
            providers: &self.providers[provider_place],
            ctx: &self.contexts[place],
        };
        drive(&mut self.desk, &objects, grant, now)
    }

    /// Gives a call up. It takes no memory.
    pub fn cancel(&mut self, grant: Grant<P, G>)
        requires { IsGrantIssuedBy (meanings_of P.ProvideCredential G.GrantCredential.own) self.old grant }
        ensures step { IsGrantStep (policy_for P.Credential.SigningCredential G.DeadlineRule)
            (Cancel grant.begun.id) self.old.desk Cancelled self.new.desk }
        ensures same { self.new ≡ record self.old { desk = self.new.desk } }
        ensures others { KeepsOthers (meanings_of P.ProvideCredential G.GrantCredential.own) grant.begun.id
            (record { old = self.old; new = self.new }) }
    {
        cancel_call(&mut self.desk, &grant.begun);
        drop(grant);
    }

    /// The desk that the granter drives.
    pub fn desk(&self) -> &GrantDesk<P::Credential, G>
        ensures { result.now ≡ self.now.desk }
    {
        &self.desk
    }
}

/// Shows the type of the credentials, and no credential.
impl<P, G> fmt::Debug for Granter<P, G>
where
    P: ProvideCredential,
    P::Credential: SigningCredential,
    G: GrantCredential<Credential = P::Credential, Ctx = P::Ctx>,
{
    fn fmt<W: fmt::Write>(&self, f: &mut fmt::Formatter<W>) -> fmt::Result {
        let mut parts = f.debug_struct("Granter");
        parts.field("credential", &P::Credential::NAME);
        parts.finish()
    }
}
