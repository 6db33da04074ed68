//! What makes one credential of another.
ghost use Rattle.std.specs.Prelude.{◌≡◌, ◌≢◌, IfOk, OnErr, option_map};
ghost use Rattle.std.specs.Duration.{as_nanos};
ghost use Rattle.credentials.specs.declared.polled.Polled.{Polled};
ghost use Rattle.credentials.specs.Polled.{CanBePolledAgain};
ghost use Rattle.credentials.specs.Operation.{Operation};

use crate::{DeadlineRule, Polled};
use sign_base::NoMemory;
use std::alloc::Global;
use std::time::Duration;

/// A service that grants a bounded credential on the strength of another of the same type. A work is
/// begun by `grant_credential` and polled until it answers `Ready` or `Failed`; it is not polled again
/// after that, which is its caller's duty. After `Pending` and after `OutOfMemory` it can be polled
/// again.
///
/// Whoever implements it grants credentials that share no secret's memory with their source, and
/// keeps secrets out of debug texts, errors and logs.
pub trait GrantCredential: DeadlineRule {
    /// What it works in.
    type Ctx: Drop;

    /// A grant that was begun.
    type Work: Drop;

    /// The work was begun by this granter in this context for this operation, and has not answered
    /// yet.
    ghost started: { Self → Self.Ctx → Operation Self.Credential → Self.Work → Type 0 };

    /// The work answers at the next poll: the granter, the context, the work.
    ghost ready: { Self → Self.Ctx → Self.Work → Type 0 };

    /// What a poll of a work may answer: the granter, the context, the operation, the answer.
    ghost gives: { Self → Self.Ctx → Operation Self.Credential → Polled Self.Credential → Type 0 };

    /// Begins a grant from this source. How long the granted credential is to serve, where the
    /// operation says so, is `expires_in`. That there was no memory for it counts as an answer of the
    /// service.
    fn grant_credential(
        &self,
        alloc: Global,
        ctx: &Self::Ctx,
        source: &Self::Credential,
        expires_in: Option<Duration>,
    ) -> Result<Self::Work, NoMemory<()>>
        ensures started { let operation : Operation Self.Credential =
            record { credential = source.now; expires_in = option_map as_nanos expires_in }
            in IfOk result (λ work. started self.now ctx.now operation work) }
        ensures memory { let operation : Operation Self.Credential =
            record { credential = source.now; expires_in = option_map as_nanos expires_in }
            in OnErr result (gives self.now ctx.now operation Polled.OutOfMemory) };

    /// Goes on with a work, as far as it can now. `Ready(c)` is the granted credential.
    fn poll_grant(
        &self,
        alloc: Global,
        ctx: &Self::Ctx,
        work: &mut Self::Work,
    ) -> Polled<Self::Credential>
        ensures kept { (operation : Operation Self.Credential) → started self.now ctx.now operation work.old
            → CanBePolledAgain result → started self.now ctx.now operation work.new }
        ensures ready { ready self.now ctx.now work.old → result ≢ Polled.Pending }
        ensures gives { (operation : Operation Self.Credential) → started self.now ctx.now operation work.old
            → gives self.now ctx.now operation result };
}
