//! What is found at heads that are signed in their headers: the plain request that AWS publishes, with
//! headers that are added, changed or missing, and at moments around its own.
use crate::suite::{NOW, PLAIN, Suite, moment, request_to};
use fixtures::head_with_headers;
use sign_base::{Head, Timestamp};
use sigv4_verify::CheckedHead::{Content, Credential, Early, Late, Shape, Signature, Valid};
use sigv4_verify::{CheckedHead, verify_head};
use std::alloc::Global;
use std::process::Abort;
use std::time::Duration;

type Header = (&'static str, &'static [u8]);

const HOST: Header = ("Host", b"example.amazonaws.com");

const DATE: Header = ("X-Amz-Date", b"20150830T123600Z");

/// As it is published.
const SIGNED: Header = (
    "Authorization",
    b"AWS4-HMAC-SHA256 Credential=AKIDEXAMPLE/20150830/us-east-1/service/aws4_request, SignedHeaders=host;x-amz-date, Signature=5fa00fa31553b73ebf1942676e86291e8372ff2a2260956d9b8aae1d763fbf31",
);

const OTHER_REGION: Header = (
    "Authorization",
    b"AWS4-HMAC-SHA256 Credential=AKIDEXAMPLE/20150830/us-east-2/service/aws4_request, SignedHeaders=host;x-amz-date, Signature=5fa00fa31553b73ebf1942676e86291e8372ff2a2260956d9b8aae1d763fbf31",
);

const OTHER_SIGNATURE: Header = (
    "Authorization",
    b"AWS4-HMAC-SHA256 Credential=AKIDEXAMPLE/20150830/us-east-1/service/aws4_request, SignedHeaders=host;x-amz-date, Signature=5fa00fa31553b73ebf1942676e86291e8372ff2a2260956d9b8aae1d763fbf32",
);

const OTHER_ORDER: Header = (
    "Authorization",
    b"AWS4-HMAC-SHA256 Credential=AKIDEXAMPLE/20150830/us-east-1/service/aws4_request, SignedHeaders=x-amz-date;host, Signature=5fa00fa31553b73ebf1942676e86291e8372ff2a2260956d9b8aae1d763fbf31",
);

const HOST_ALONE: Header = (
    "Authorization",
    b"AWS4-HMAC-SHA256 Credential=AKIDEXAMPLE/20150830/us-east-1/service/aws4_request, SignedHeaders=host, Signature=5fa00fa31553b73ebf1942676e86291e8372ff2a2260956d9b8aae1d763fbf31",
);

const AGENT: Header = ("User-Agent", b"curl/8");

/// Of the content that is checked, and of another one.
const EMPTY: Header = (
    "X-Amz-Content-Sha256",
    b"e3b0c44298fc1c149afbf4c8996fb92427ae41e4649b934ca495991b7852b855",
);

const UNSIGNED: Header = ("X-Amz-Content-Sha256", b"UNSIGNED-PAYLOAD");

const SECOND: i128 = 1_000_000_000;

/// Headers, a moment, and what is found with five minutes of tolerance.
static FOUND: [(&[Header], i128, CheckedHead); 17] = [
    (&[HOST, DATE, SIGNED], NOW, Valid),
    (&[HOST, DATE, SIGNED], NOW + 300 * SECOND, Valid),
    (&[HOST, DATE, SIGNED], NOW + 300 * SECOND + 1, Late),
    (&[HOST, DATE, SIGNED], NOW - 300 * SECOND, Valid),
    (&[HOST, DATE, SIGNED], NOW - 300 * SECOND - 1, Early),
    (&[AGENT, SIGNED, HOST, DATE, EMPTY], NOW, Valid),
    (&[HOST, DATE, SIGNED, UNSIGNED], NOW, Content),
    (&[HOST, DATE, OTHER_REGION], NOW, Credential),
    (&[HOST, DATE, OTHER_SIGNATURE], NOW, Signature),
    (&[HOST, HOST, DATE, SIGNED], NOW, Signature),
    (&[HOST, DATE], NOW, Shape),
    (&[HOST, SIGNED], NOW, Shape),
    (&[DATE, SIGNED], NOW, Shape),
    (&[HOST, DATE, DATE, SIGNED], NOW, Shape),
    (&[HOST, DATE, SIGNED, SIGNED], NOW, Shape),
    (&[HOST, DATE, OTHER_ORDER], NOW, Shape),
    (&[HOST, DATE, HOST_ALONE], NOW, Shape),
];

#[test]
fn signed_heads_are_checked(rt: HostRuntime) {
    let by = request_to(&rt, rt.alloc(), PLAIN);
    for (headers, nanos, wanted) in &FOUND {
        is_found(&rt, rt.alloc(), &by, *headers, *nanos, *wanted);
    }
    drop(by);
}

/// This is found at the suite's request with these headers, at this moment.
fn is_found(
    rt: &impl Abort,
    alloc: Global,
    by: &Suite,
    headers: &[Header],
    nanos: i128,
    wanted: CheckedHead,
) {
    let head = head_with_headers(alloc, "GET", PLAIN, headers).expect(rt, "memory");
    let found = found_at(alloc, by, &head, moment(rt, nanos));
    drop(head);
    assert!(rt; found == Some(wanted), "{nanos}");
}

fn found_at(alloc: Global, by: &Suite, head: &Head, now: Timestamp) -> Option<CheckedHead> {
    verify_head(
        alloc,
        head,
        &by.credential,
        &by.scope,
        &by.payload,
        now,
        Duration::from_secs(300),
    )
    .ok()
}
