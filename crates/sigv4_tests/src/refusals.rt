//! What is refused, with which kind and message.
use crate::told::{is_text, refusal};
use sigv4_core::{Payload, SigCredential, SigError, SigScope};
use sigv4_presign::PresignError;

const INVALID_KEY: &str = "CredentialInvalid: invalid key";

/// Access key, secret, and the answer.
static KEYS: [(&[u8], &[u8], &str); 7] = [
    (b"", b"secret", INVALID_KEY),
    (b"two words", b"secret", INVALID_KEY),
    (b"tab\t", b"secret", INVALID_KEY),
    (b"\x7f", b"secret", INVALID_KEY),
    (b"\xc3\xa9", b"secret", INVALID_KEY),
    (b"access", b"", INVALID_KEY),
    (b"!~", b" ", "made"),
];

#[test]
fn keys_are_visible(rt: HostRuntime) {
    for (access, secret, wanted) in &KEYS {
        let made = SigCredential::new(rt.alloc(), *access, *secret, None);
        is_text(&rt, refusal(&rt, rt.alloc(), made.err()), *wanted);
    }
}

const INVALID_SCOPE: &str = "ConfigInvalid: invalid scope";

/// Region, service, and the answer.
static SCOPES: [(&[u8], &[u8], &str); 7] = [
    (b"", b"s3", INVALID_SCOPE),
    (b"US-EAST-1", b"s3", INVALID_SCOPE),
    (b"us_east_1", b"s3", INVALID_SCOPE),
    (b"us-east-1", b"", INVALID_SCOPE),
    (b"us-east-1", b"S3", INVALID_SCOPE),
    (b"us-east-1", b"s3/", INVALID_SCOPE),
    (b"-", b"09-az", "made"),
];

#[test]
fn scopes_are_in_lower_case(rt: HostRuntime) {
    for (region, service, wanted) in &SCOPES {
        let made = SigScope::new(rt.alloc(), *region, *service);
        is_text(&rt, refusal(&rt, rt.alloc(), made.err()), *wanted);
    }
}

const INVALID_DIGEST: &str = "RequestInvalid: invalid payload digest";

/// Digests, and the answer.
static DIGESTS: [(&[u8], &str); 6] = [
    (b"UNSIGNED-PAYLOAD", INVALID_DIGEST),
    (
        b"e3b0c44298fc1c149afbf4c8996fb92427ae41e4649b934ca495991b7852b85",
        INVALID_DIGEST,
    ),
    (
        b"e3b0c44298fc1c149afbf4c8996fb92427ae41e4649b934ca495991b7852b8555",
        INVALID_DIGEST,
    ),
    (
        b"E3B0C44298FC1C149AFBF4C8996FB92427AE41E4649B934CA495991B7852B855",
        INVALID_DIGEST,
    ),
    (
        b"g3b0c44298fc1c149afbf4c8996fb92427ae41e4649b934ca495991b7852b855",
        INVALID_DIGEST,
    ),
    (
        b"e3b0c44298fc1c149afbf4c8996fb92427ae41e4649b934ca495991b7852b855",
        "made",
    ),
];

#[test]
fn digests_have_64_lower_case_digits(rt: HostRuntime) {
    for (digest, wanted) in &DIGESTS {
        let made = Payload::digest(rt.alloc(), *digest);
        is_text(&rt, refusal(&rt, rt.alloc(), made.err()), *wanted);
    }
}

/// Refusals as errors.
static ERRORS: [(SigError, &str); 5] = [
    (SigError::Head, "RequestInvalid: head not accepted"),
    (
        SigError::Authority,
        "RequestInvalid: request without authority is invalid for signing",
    ),
    (
        SigError::Path,
        "RequestInvalid: path with escapes is not supported",
    ),
    (SigError::Moment, "RequestInvalid: moment out of range"),
    (SigError::OutOfMemory, "OutOfMemory: "),
];

#[test]
fn refusals_of_heads_become_errors(rt: HostRuntime) {
    for (why, wanted) in &ERRORS {
        let error = why.into_error(rt.alloc()).expect(&rt, "memory");
        is_text(&rt, refusal(&rt, rt.alloc(), Some(error)), *wanted);
    }
}

/// Refusals of links as errors.
static LINK_ERRORS: [(PresignError, &str); 8] = [
    (PresignError::Head, "RequestInvalid: head not accepted"),
    (
        PresignError::Authority,
        "RequestInvalid: request without authority is invalid for signing",
    ),
    (
        PresignError::Path,
        "RequestInvalid: path with escapes is not supported",
    ),
    (PresignError::Moment, "RequestInvalid: moment out of range"),
    (
        PresignError::Already,
        "RequestInvalid: query is presigned already",
    ),
    (PresignError::Expires, "RequestInvalid: expiry out of range"),
    (PresignError::Link, "RequestInvalid: link not accepted"),
    (PresignError::OutOfMemory, "OutOfMemory: "),
];

#[test]
fn refusals_of_links_become_errors(rt: HostRuntime) {
    for (why, wanted) in &LINK_ERRORS {
        let error = why.into_error(rt.alloc()).expect(&rt, "memory");
        is_text(&rt, refusal(&rt, rt.alloc(), Some(error)), *wanted);
    }
}
