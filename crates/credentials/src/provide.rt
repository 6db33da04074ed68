//! Where credentials come from.
ghost use Rattle.std.specs.Prelude.{◌≡◌, ◌≢◌, Option, IfOk, OnErr};
ghost use Rattle.credentials.specs.declared.polled.Polled.{Polled};
ghost use Rattle.credentials.specs.Polled.{CanBePolledAgain};

use crate::Polled;
use sign_base::NoMemory;
use std::alloc::Global;

/// A provider of credentials. A load is begun by `provide_credential` and polled until it answers
/// `Ready` or `Failed`; it is not polled again after that, which is its caller's duty. After
/// `Pending` and after `OutOfMemory` it can be polled again.
///
/// Whoever implements it keeps secrets out of debug texts, errors and logs.
pub trait ProvideCredential: Drop {
    /// What it provides.
    type Credential: Drop;

    /// What it works in.
    type Ctx: Drop;

    /// A load of a credential that was begun.
    type Load: Drop;

    /// The load was begun by this provider in this context, and has not answered yet.
    ghost started: { Self → Self.Ctx → Self.Load → Type 0 };

    /// The load answers at the next poll: the provider, the context, the load.
    ghost ready: { Self → Self.Ctx → Self.Load → Type 0 };

    /// What a poll of a load may answer: the provider, the context, the answer.
    ghost gives: { Self → Self.Ctx → Polled (Option Self.Credential) → Type 0 };

    /// Begins a load. That there was no memory for it counts as an answer of the provider.
    fn provide_credential(&self, alloc: Global, ctx: &Self::Ctx) -> Result<Self::Load, NoMemory<()>>
        ensures started { IfOk result (λ load. started self.now ctx.now load) }
        ensures memory { OnErr result (gives self.now ctx.now Polled.OutOfMemory) };

    /// Goes on with a load, as far as it can now. `Ready(Some(c))` is a credential that was found,
    /// and `Ready(None)` says that there is none.
    fn poll_load(
        &self,
        alloc: Global,
        ctx: &Self::Ctx,
        load: &mut Self::Load,
    ) -> Polled<Option<Self::Credential>>
        ensures kept { started self.now ctx.now load.old → CanBePolledAgain result
            → started self.now ctx.now load.new }
        ensures ready { ready self.now ctx.now load.old → result ≢ Polled.Pending }
        ensures gives { started self.now ctx.now load.old → gives self.now ctx.now result };
}
