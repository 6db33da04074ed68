//! How heads state their content.

/// Which word a head is signed with for its content, and whether its header `x-amz-content-sha256` says so.
/// By none of them is a head signed that says another.
#[derive(Clone, Copy, Debug, PartialEq, Eq)]
pub enum ContentRule {
    /// The service's word, of which the head need not say anything.
    Unstated,
    /// The service's word. The header is added where none is there, as S3 wants it.
    Stated,
    /// The word that the head says, or else the service's. The header is added where none is there.
    OfHead,
}
