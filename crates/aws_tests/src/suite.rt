//! The plain request of the test suite that AWS publishes, and the request of the published link.
use sign_base::Timestamp;
use std::process::Abort;

/// 2015-08-30T12:36:00Z, in nanoseconds since 1970.
pub(crate) const NOW: i128 = 1_440_938_160_000_000_000;

/// The suite's URI.
pub(crate) const PLAIN: &str = "https://example.amazonaws.com/";

/// 2013-05-24T00:00:00Z, the second of the published link, in nanoseconds since 1970.
pub(crate) const PUBLISHED: i128 = 1_369_353_600_000_000_000;

/// The object to which AWS publishes a link.
pub(crate) const OBJECT: &str = "https://examplebucket.s3.amazonaws.com/test.txt";

/// A moment by its nanoseconds since 1970.
pub(crate) fn moment(rt: &impl Abort, nanos: i128) -> Timestamp {
    Timestamp::from_nanos(nanos).expect(rt, "a moment")
}
