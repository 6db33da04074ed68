//! What the check of a signed head finds.

/// What the check of a head that is signed in its headers finds: the first of these that holds.
#[derive(Clone, Copy, Debug, PartialEq, Eq)]
pub enum CheckedHead {
    /// `http` does not accept the head.
    Head,
    /// The URI names no authority.
    Authority,
    /// The path has an escape, and the service is not `s3`.
    Path,
    /// The headers `authorization` and `x-amz-date` do not say of a signature by which credential, of which
    /// headers, which it is and of which second; or it is not of the host and the date, or its list of names
    /// is not spelled as that of the headers that it names, or is longer than 8,192 bytes.
    Shape,
    /// The signature is by another access key, for another scope, or of another day than its date.
    Credential,
    /// Its date lies after now by more than the tolerance.
    Early,
    /// Its date lies before now by more than the tolerance.
    Late,
    /// A header says another content than the payload.
    Content,
    /// The signature is not that of this head.
    Signature,
    /// None of these.
    Valid,
}
