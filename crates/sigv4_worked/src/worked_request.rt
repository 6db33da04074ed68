//! The published example, computed from the definitions.
ghost use Rattle.sigv4_worked.specs.WorkedRequest.{IamRequest, WorkedPaths, WorkedQueries, WorkedValues};

/// The canonical request of the example that AWS publishes for IAM.
pub fn iam_request_is_as_published()
    ensures { IamRequest }
{}

/// Each segment of a path is decoded once and encoded.
pub fn paths_are_encoded_by_segments()
    ensures { WorkedPaths }
{}

/// Pairs are sorted after their encoding, and each has its `=`.
pub fn pairs_are_sorted_after_encoding()
    ensures { WorkedQueries }
{}

/// Spaces at the ends of a value go, and those inside become one.
pub fn values_are_single_spaced()
    ensures { WorkedValues }
{}
