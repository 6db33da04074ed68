//! Whose document it is.

/// Whose document of a credential it is: they differ in a few members.
#[derive(Clone, Copy, Debug)]
pub enum DocumentForm {
    /// That of a process, by the setting `credential_process`: `Version` is the number 1, the token is
    /// `SessionToken`, and without `Expiration` the credential does not expire.
    Process,
    /// That of a container's or an instance's endpoint: `Code`, where it is there, is `Success`, the token is
    /// `Token`, and `Expiration` is there.
    Endpoint,
}
