//! A load of an instance's credential: how far it is.

use sign_base::Octets;

/// A load of an instance's credential: what it waits for. Where a later request needs the address of the
/// service or the token, these are kept; the token is a secret.
#[derive(Drop)]
pub enum InstanceLoad<S> {
    /// Nothing: no request was sent yet.
    Start,
    /// A token.
    Token {
        root: Octets,
        send: S,
    },
    /// The name of the role.
    Role {
        root: Octets,
        token: Octets,
        send: S,
    },
    /// The credential of the role.
    Credential {
        send: S,
    },
}
