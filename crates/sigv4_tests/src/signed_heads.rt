//! Heads signed at moments that no line has, and with the key of a day. The date of a signature is that of
//! the whole second at or before its moment. The values are published, or those of botocore, and for the
//! year 0 those of Python's `hmac`.
use crate::suite::{NOW, PLAIN, Suite, moment, request_to};
use crate::told::{is_text, str_of, text_of, word};
use sign_base::{Head, Timestamp};
use sign_request::HeaderSeeds;
use sigv4_core::{
    SigError, SigningKey, is_before_year_0, sign_head, sign_head_with_key, signature,
};
use std::alloc::Global;
use std::process::Abort;

/// The values of the headers that a signature brings, as they are published.
pub(crate) const SIGNED: &str =
    "20150830T123600Z AWS4-HMAC-SHA256 Credential=AKIDEXAMPLE/20150830/us-east-1/service/aws4_request, SignedHeaders=host;x-amz-date, Signature=5fa00fa31553b73ebf1942676e86291e8372ff2a2260956d9b8aae1d763fbf31";

/// Of the last second before 1970, and of the one before it.
const LAST_OF_1969: &str =
    "19691231T235959Z AWS4-HMAC-SHA256 Credential=AKIDEXAMPLE/19691231/us-east-1/service/aws4_request, SignedHeaders=host;x-amz-date, Signature=17f0f30ab0dc8f229957a02d08c1a50422b89fddc3f9388c3ce1ec9bd7605315";

const OF_1969: &str =
    "19691231T235958Z AWS4-HMAC-SHA256 Credential=AKIDEXAMPLE/19691231/us-east-1/service/aws4_request, SignedHeaders=host;x-amz-date, Signature=65acf47f9e9e37ea0c59f81c4b3fda50c221bc2d88f0726c45e37f1f2c0d3036";

const OF_YEAR_0: &str =
    "00000101T000000Z AWS4-HMAC-SHA256 Credential=AKIDEXAMPLE/00000101/us-east-1/service/aws4_request, SignedHeaders=host;x-amz-date, Signature=b62d4217fc0aaa5ed8afe502c31f2794170bd626672ddc6e90560c36b36e0f75";

/// The last moment before the year 0.
pub(crate) const BEFORE_YEAR_0: i128 = -62_167_219_200_000_000_001;

/// The values of botocore at the first and the last second of the day.
const FIRST: &str =
    "20150830T000000Z AWS4-HMAC-SHA256 Credential=AKIDEXAMPLE/20150830/us-east-1/service/aws4_request, SignedHeaders=host;x-amz-date, Signature=bd697a1893671c85052c41fcc14a60ce07d8ff41cf0a1c1913ad8d8466523c29";

const LAST: &str =
    "20150830T235959Z AWS4-HMAC-SHA256 Credential=AKIDEXAMPLE/20150830/us-east-1/service/aws4_request, SignedHeaders=host;x-amz-date, Signature=f1e56d41656220792b3e2fff083515f2c4b7550ef6f82dfbfb6179174236566e";

/// The suite's canonical request, and its signature.
const REQUEST: &str =
    "GET\n/\n\nhost:example.amazonaws.com\nx-amz-date:20150830T123600Z\n\nhost;x-amz-date\ne3b0c44298fc1c149afbf4c8996fb92427ae41e4649b934ca495991b7852b855";

const SIGNATURE: &str = "5fa00fa31553b73ebf1942676e86291e8372ff2a2260956d9b8aae1d763fbf31";

/// By what a request is signed.
#[derive(Clone, Copy)]
enum By {
    Credential,
    Key,
    Text,
}

/// How, the URI, nanoseconds since 1970, and what is told of the request that is signed then.
static ROWS: [(By, &str, i128, &str); 14] = [
    (By::Credential, PLAIN, NOW, SIGNED),
    (By::Credential, PLAIN, NOW + 999_999_999, SIGNED),
    (By::Credential, PLAIN, -1, LAST_OF_1969),
    (By::Credential, PLAIN, -1_000_000_001, OF_1969),
    (By::Credential, PLAIN, -2_000_000_000, OF_1969),
    (By::Credential, PLAIN, BEFORE_YEAR_0 + 1, OF_YEAR_0),
    (By::Credential, PLAIN, BEFORE_YEAR_0, "Moment"),
    (By::Credential, "https://e.x/%20", BEFORE_YEAR_0, "Path"),
    (By::Credential, "/%20", BEFORE_YEAR_0, "Authority"),
    (By::Credential, "e.x/a", BEFORE_YEAR_0, "Head"),
    (By::Key, PLAIN, 1_440_892_800_000_000_000, FIRST),
    (By::Key, PLAIN, NOW, SIGNED),
    (By::Key, PLAIN, 1_440_979_199_999_999_999, LAST),
    (By::Text, PLAIN, NOW, SIGNATURE),
];

#[test]
fn heads_are_signed_as_published(rt: HostRuntime) {
    for (how, uri, nanos, wanted) in &ROWS {
        is_text(&rt, signed_at(&rt, rt.alloc(), *how, *uri, *nanos), *wanted);
    }
}

/// What is told of the suite's request to this URI, signed at this moment.
fn signed_at(rt: &impl Abort, alloc: Global, how: By, uri: &str, nanos: i128) -> String {
    let by = request_to(rt, alloc, uri);
    let told = signed_by(rt, alloc, how, &by, moment(rt, nanos));
    drop(by);
    told
}

fn signed_by(rt: &impl Abort, alloc: Global, how: By, by: &Suite, now: Timestamp) -> String {
    match how {
        By::Credential => told(
            rt,
            alloc,
            sign_head(alloc, &by.head, &by.credential, &by.scope, &by.payload, now),
        ),
        By::Key => signed_with(rt, alloc, by, now),
        By::Text => text_signed(rt, alloc, by, now),
    }
}

fn text_signed(rt: &impl Abort, alloc: Global, by: &Suite, now: Timestamp) -> String {
    assert!(rt; !is_before_year_0(now));
    let text = signature(alloc, &by.credential, &by.scope, now, REQUEST.as_bytes());
    let text = text.expect(rt, "memory");
    text_of(rt, alloc, text.as_slice())
}

/// The values of the last two headers of a signed head, or the cause.
pub(crate) fn told(rt: &impl Abort, alloc: Global, answer: Result<Head, SigError>) -> String {
    match answer {
        Ok(head) => {
            let told = last_values(rt, alloc, &head);
            drop(head);
            told
        }
        Err(why) => word(rt, alloc, why),
    }
}

pub(crate) fn last_values(rt: &impl Abort, alloc: Global, head: &Head) -> String {
    let [.., moment, authorization] = head.headers.as_slice() else {
        return text_of(rt, alloc, b"two headers are missing");
    };
    let moment = str_of(rt, moment.value.as_slice());
    let authorization = str_of(rt, authorization.value.as_slice());
    format!(in alloc; "{moment} {authorization}").expect(rt, "memory")
}

/// The suite's key of the day.
pub(crate) fn derived(rt: &impl Abort, alloc: Global, by: &Suite) -> SigningKey {
    let now = moment(rt, NOW);
    assert!(rt; !is_before_year_0(now));
    SigningKey::derive(alloc, &by.credential, &by.scope, now).expect(rt, "memory")
}

fn signed_with(rt: &impl Abort, alloc: Global, by: &Suite, now: Timestamp) -> String {
    let key = derived(rt, alloc, by);
    let signed = signed_by_key(rt, alloc, by, &key, now);
    drop(key);
    signed
}

fn signed_by_key(
    rt: &impl Abort,
    alloc: Global,
    by: &Suite,
    key: &SigningKey,
    now: Timestamp,
) -> String {
    assert!(rt; !is_before_year_0(now));
    assert!(rt; key.is_for_day_of(alloc, now).expect(rt, "memory"));
    let keys = HeaderSeeds::default();
    told(
        rt,
        alloc,
        sign_head_with_key(alloc, &by.head, key, &by.payload, now, keys),
    )
}
