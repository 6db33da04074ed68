//! What signs a request.
ghost use Rattle.std.specs.Prelude.{◌≡◌, ◌≢◌, IfOk, OnErr, option_map};
ghost use Rattle.std.specs.Duration.{as_nanos};
ghost use Rattle.sign_base.specs.declared.head.Head.{Head};
ghost use Rattle.credentials.specs.Polled.{CanBePolledAgain};
ghost use Rattle.credentials.specs.Operation.{Operation, SignOutcome, IsCandidate};

use crate::{DeadlineRule, Polled};
use sign_base::{Head, NoMemory};
use std::alloc::Global;
use std::time::Duration;

/// A service that signs a request head. A work is begun by `sign_request` and polled until it
/// answers `Ready` or `Failed`; it is not polled again after that, which is its caller's duty. After
/// `Pending` and after `OutOfMemory` it can be polled again.
///
/// Whoever implements it takes the URI of the head as it is, keeps secrets out of debug texts, errors
/// and logs, and, where an artifact has a signing time, takes it and the deadline from one moment.
pub trait SignRequest: DeadlineRule {
    /// What it works in.
    type Ctx: Drop;

    /// A signing that was begun.
    type Work: Drop;

    /// The work was begun by this service in this context for this operation, and has not answered
    /// yet.
    ghost started: { Self → Self.Ctx → Operation Self.Credential → Self.Work → Type 0 };

    /// The work answers at the next poll: the service, the context, the work.
    ghost ready: { Self → Self.Ctx → Self.Work → Type 0 };

    /// What a poll of a work may leave: the service, the context, the operation, the head before
    /// the first poll, and the answer with the candidate after the poll.
    ghost gives: { Self → Self.Ctx → Operation Self.Credential → Head → SignOutcome → Type 0 };

    /// Begins to sign with this credential. How long the signature is to serve, where the operation
    /// says so, is `expires_in`. That there was no memory for it counts as an answer of the service,
    /// which leaves the head as it is.
    fn sign_request(
        &self,
        alloc: Global,
        ctx: &Self::Ctx,
        credential: &Self::Credential,
        expires_in: Option<Duration>,
    ) -> Result<Self::Work, NoMemory<()>>
        ensures started { let operation : Operation Self.Credential =
            record { credential = credential.now; expires_in = option_map as_nanos expires_in }
            in IfOk result (λ work. started self.now ctx.now operation work) }
        ensures memory { let operation : Operation Self.Credential =
            record { credential = credential.now; expires_in = option_map as_nanos expires_in }
            in OnErr result ((head : Head) → gives self.now ctx.now operation head
            (record { answer = Polled.OutOfMemory; candidate = head })) };

    /// Goes on with a work, as far as it can now. The candidate is the head to be signed, at every
    /// poll of a work the same one; after `Ready(())` it is the signed head. Of it the caller takes
    /// the URI and the headers, and nothing where the answer is not `Ready`.
    fn poll_sign(
        &self,
        alloc: Global,
        ctx: &Self::Ctx,
        work: &mut Self::Work,
        candidate: &mut Head,
    ) -> Polled<()>
        ensures kept { (operation : Operation Self.Credential) → started self.now ctx.now operation work.old
            → CanBePolledAgain result → started self.now ctx.now operation work.new }
        ensures ready { ready self.now ctx.now work.old → result ≢ Polled.Pending }
        ensures gives { (operation : Operation Self.Credential) (head : Head)
            → started self.now ctx.now operation work.old
            → IsCandidate (gives self.now ctx.now operation head) head candidate.old
            → gives self.now ctx.now operation head
            (record { answer = result; candidate = candidate.new }) };
}
