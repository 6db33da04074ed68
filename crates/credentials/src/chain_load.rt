//! How a chain asks its providers.
ghost use Rattle.std.specs.Prelude.{◌≡◌, ◌≢◌, ◌+◌, ◌^◌, ◌<◌, ◌≤◌, length, [], IfOk, IsOk, IfSome};
ghost use Rattle.std.specs.Prelude.{IsSome, IfNone, None, Some, OnErr, MatchOption};
ghost use Rattle.credentials.specs.Chain.{ChainStarted, ChainReady, ChainGives, is_passed_over};
ghost use Rattle.credentials.specs.Polled.{CanBePolledAgain};

use crate::{Polled, ProvideCredential, ProvideCredentialChain};
use sign_base::NoMemory;
use std::alloc::Global;
use std::marker::Model;

/// A load of a chain: the provider that was asked last, and its load. No load is open where the chain
/// is empty, or where there was no memory to start the load of the next provider.
#[derive(Drop)]
pub struct ChainLoad<L> {
    place: usize,
    open_load: Option<L>,
}

impl<L> Model for ChainLoad<L> {
    ghost use Rattle.credentials.specs.Chain.{ChainProgress};

    ghost Value = { ChainProgress L };

    ghost view = { λ load. record { place = load.place; open_load = load.open_load } };
}

impl<L: Drop> ChainLoad<L> {
    /// Goes on to the next provider, whose load is not started yet.
    fn pass_over(&mut self)
        requires { self.old.place + 1 < 2 ^ 64 }
        ensures { self.new ≡ record { place = self.old.place + 1; open_load = None } }
    {
        self.open_load = None;
        self.place += 1;
    }
}

impl<P: ProvideCredential> ProvideCredential for ProvideCredentialChain<P> {
    type Credential = P::Credential;

    type Ctx = P::Ctx;

    type Load = ChainLoad<P::Load>;

    ghost started = { λ chain ctx load.
        ChainStarted (λ p answer. P.gives p ctx answer) (λ p l. P.started p ctx l) chain load };

    ghost ready = { λ chain ctx load.
        ChainReady (λ p l. P.started p ctx l) (λ p l. P.ready p ctx l) chain load };

    ghost gives = { λ chain ctx answer. ChainGives (λ p a. P.gives p ctx a) chain answer };

    /// Starts the load of the first provider, which is open then. A chain of none takes no memory.
    fn provide_credential(
        &self,
        alloc: Global,
        ctx: &P::Ctx,
    ) -> Result<ChainLoad<P::Load>, NoMemory<()>>
        ensures started { IfOk result (λ load.
            ChainStarted (λ p a. P.gives p ctx.now a) (λ p l. P.started p ctx.now l) self.now load) }
        ensures opened { IfOk result (λ load. self.now ≢ [] → IsSome load.open_load) }
        ensures memory { OnErr result (ChainGives (λ p a. P.gives p ctx.now a) self.now Polled.OutOfMemory) }
        ensures empty { self.now ≡ [] → IsOk result }
    {
        let open_load = match self.providers.first() {
            Some(first) => Some(first.provide_credential(alloc, ctx)?),
            None => None,
        };
        Ok(ChainLoad {
            place: 0,
            open_load,
        })
    }

    /// Polls the open load, and goes on to the next provider for as long as they answer that there is
    /// none, or fail. A load that is pending stays open. A chain of none answers at once that there is
    /// none.
    fn poll_load(
        &self,
        alloc: Global,
        ctx: &P::Ctx,
        load: &mut ChainLoad<P::Load>,
    ) -> Polled<Option<P::Credential>>
        ensures kept { ChainStarted (λ p a. P.gives p ctx.now a)
            (λ p l. P.started p ctx.now l) self.now load.old
            → CanBePolledAgain result
            → ChainStarted (λ p a. P.gives p ctx.now a) (λ p l. P.started p ctx.now l) self.now load.new }
        ensures ready { ChainReady (λ p l. P.started p ctx.now l)
            (λ p l. P.ready p ctx.now l) self.now load.old
            → result ≢ Polled.Pending }
        ensures pending { result ≡ Polled.Pending → IsSome load.new.open_load }
        ensures onward { load.old.place ≤ load.new.place }
        ensures gives { ChainStarted (λ p a. P.gives p ctx.now a)
            (λ p l. P.started p ctx.now l) self.now load.old
            → ChainGives (λ p a. P.gives p ctx.now a) self.now result }
        ensures empty { self.now ≡ [] → result ≡ Polled.Ready None }
    {
        while load.place < self.providers.len() {
            if let Some(answer) = poll_next(self, alloc, ctx, load) {
                return answer;
            }
        }
        Polled::Ready(None)
    }
}

/// Polls the provider at the load's place. None says that it is passed over, and the load is at the
/// next place then.
fn poll_next<P: ProvideCredential>(
    chain: &ProvideCredentialChain<P>,
    alloc: Global,
    ctx: &P::Ctx,
    load: &mut ChainLoad<P::Load>,
) -> Option<Polled<Option<P::Credential>>>
    requires { load.old.place < length chain.now }
    ensures next { MatchOption result (load.new.place ≡ load.old.place + 1)
        (λ answer. load.new.place ≡ load.old.place) }
    ensures passed { IfNone result
        (ChainStarted (λ p a. P.gives p ctx.now a) (λ p l. P.started p ctx.now l) chain.now load.old
        → ChainStarted (λ p a. P.gives p ctx.now a) (λ p l. P.started p ctx.now l) chain.now load.new) }
    ensures kept { IfSome result (λ answer.
        ChainStarted (λ p a. P.gives p ctx.now a) (λ p l. P.started p ctx.now l) chain.now load.old
        → CanBePolledAgain answer
        → ChainStarted (λ p a. P.gives p ctx.now a) (λ p l. P.started p ctx.now l) chain.now load.new) }
    ensures gives { IfSome result (λ answer.
        ChainStarted (λ p a. P.gives p ctx.now a) (λ p l. P.started p ctx.now l) chain.now load.old
        → ChainGives (λ p a. P.gives p ctx.now a) chain.now answer) }
    ensures ready { ChainReady (λ p l. P.started p ctx.now l) (λ p l. P.ready p ctx.now l) chain.now load.old
        → MatchOption result
        (ChainReady (λ p l. P.started p ctx.now l) (λ p l. P.ready p ctx.now l) chain.now load.new)
        (λ answer. answer ≢ Polled.Pending) }
    ensures pending { result ≡ Some Polled.Pending → IsSome load.new.open_load }
{
    let provider = &chain.providers[load.place];
    let answer = poll_provider(provider, alloc, ctx, &mut load.open_load);
    if passes_over(&answer) {
        load.pass_over();
        return None;
    }
    Some(answer)
}

/// Whether a chain asks the next provider after this answer.
fn passes_over<C>(answer: &Polled<Option<C>>) -> bool
    ensures { result ≡ is_passed_over answer.now }
{
    match answer {
        Polled::Ready(None) | Polled::Failed(_) => true,
        Polled::Ready(Some(_)) | Polled::Pending | Polled::OutOfMemory => false,
    }
}

/// Polls the open load of a provider, which is started first where none is open.
fn poll_provider<P: ProvideCredential>(
    provider: &P,
    alloc: Global,
    ctx: &P::Ctx,
    open_load: &mut Option<P::Load>,
) -> Polled<Option<P::Credential>>
    ensures kept { IfSome open_load.old (λ l. P.started provider.now ctx.now l) → CanBePolledAgain result
        → IfSome open_load.new (λ l. P.started provider.now ctx.now l) }
    ensures ready { MatchOption open_load.old
        ((l : P.Load) → P.started provider.now ctx.now l → P.ready provider.now ctx.now l)
        (λ l. P.ready provider.now ctx.now l)
        → result ≢ Polled.Pending }
    ensures gives { IfSome open_load.old (λ l. P.started provider.now ctx.now l)
        → P.gives provider.now ctx.now result }
    ensures pending { result ≡ Polled.Pending → IsSome open_load.new }
{
    let mut load = match open_load.take() {
        Some(load) => load,
        None => match provider.provide_credential(alloc, ctx) {
            Ok(load) => load,
            Err(_) => return Polled::OutOfMemory,
        },
    };
    let answer = provider.poll_load(alloc, ctx, &mut load);
    *open_load = Some(load);
    answer
}
