//! What a line of `sigv4` says.
use sign_base::{Head, Timestamp};
use sigv4_core::{Payload, SigCredential, SigScope};

/// What a line asks for.
#[derive(Drop)]
pub enum Asked {
    /// The head, signed in its headers, with this payload.
    Sign(Payload),
    /// A link that is good for so many seconds.
    Presign(u32),
    /// What the head's URI is as a link.
    Verify,
}

/// What a good line says: a head, what is asked for it, and with what.
#[derive(Drop)]
pub struct Sigv4Item {
    pub credential: SigCredential,
    pub scope: SigScope,
    pub moment: Timestamp,
    pub asked: Asked,
    pub head: Head,
}
