//! What the auditor says to a claim.
use sequential_signer::Reply;

/// The answer to an event with the reply that is claimed for it.
#[derive(Debug, Drop)]
pub enum Claim<K> {
    /// The claim is the expected reply, or that an allocation failed where the event takes memory.
    Legal,
    /// It is not: this is the expected reply.
    Due(Reply<K>),
    /// An allocation of the auditor failed, so it does not say.
    OutOfMemory,
}
