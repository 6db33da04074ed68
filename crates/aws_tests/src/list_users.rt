//! The request to IAM that AWS publishes, signed by a signer with the key of the environment.
use crate::environment_key::{EnvironmentKey, Surroundings};
use crate::session_signer::{Variables, environment};
use crate::suite::{NOW, moment};
use crate::told::{header_of, is_text, message_of, request, text_of};
use credentials::{OsEnv, Providers};
use http::request::Parts;
use sequential_signer::SigningCredential;
use sign_base::{Error, Timestamp};
use signer::{Refusal, SignAnswer, SignPoll, Signer};
use sigv4_core::{Payload, SigCredential, SigScope, SigService};
use std::alloc::Global;
use std::process::Abort;

/// A signer for AWS.
type AwsSigner = Signer<EnvironmentKey, SigService<Surroundings>>;

/// A signer of requests to IAM that have no content.
fn aws_signer(alloc: Global, env: OsEnv, now: Timestamp) -> Option<AwsSigner> {
    let service = service(alloc).ok()?;
    let key = Providers::Single(EnvironmentKey);
    Signer::new(alloc, Surroundings { env, now }, key, service).ok()
}

fn service(alloc: Global) -> Result<SigService<Surroundings>, Error> {
    let scope = SigScope::new(alloc, b"us-east-1", b"iam")?;
    Ok(SigService::new(scope, Payload::of(alloc, b"")?))
}

/// Signs a request under handle 0, and tells the header that it has then, or why it is refused. Provider
/// and service answer at once, so the call ends at its first poll.
fn sign(
    rt: &impl Abort,
    alloc: Global,
    signer: &mut AwsSigner,
    req: &mut Parts,
    now: Timestamp,
) -> String {
    assert!(rt; signer.desk().handles() > 0);
    let sign = signer.sign(0, req, None).expect(rt, "a call");
    let SignPoll { answer, .. } = signer.poll(sign, req, now);
    match answer {
        SignAnswer::Done => text_of(rt, alloc, header_of(rt, req, "authorization").as_bytes()),
        SignAnswer::Refused(why) => error_text(rt, alloc, why),
        goes_on => {
            drop(goes_on);
            String::new(alloc)
        }
    }
}

fn error_text(rt: &impl Abort, alloc: Global, why: Refusal) -> String {
    let error = why.into_error(alloc, SigCredential::NAME);
    message_of(rt, alloc, error.expect(rt, "memory"))
}

/// What a signer in this environment makes of the published request, to this URI, at 2015-08-30T12:36:00Z.
fn signed_in(rt: &impl Abort, alloc: Global, set: Variables, uri: &str) -> String {
    let now = moment(rt, NOW);
    let form = b"application/x-www-form-urlencoded; charset=utf-8".as_slice();
    let mut req = request(rt, alloc, uri, &[("content-type", form)]);
    let mut signer = boxed_signer(rt, alloc, set, now);
    let told = sign(rt, alloc, &mut signer, &mut req, now);
    drop(signer);
    drop(req);
    told
}

/// In a box it is one value to whoever proves where it is dropped.
fn boxed_signer(rt: &impl Abort, alloc: Global, set: Variables, now: Timestamp) -> Box<AwsSigner> {
    let signer = aws_signer(alloc, environment(rt, alloc, set), now);
    Box::new(alloc, signer.expect(rt, "memory")).expect(rt, "memory")
}

/// The URI as it is published.
const LIST_USERS: &str = "https://iam.amazonaws.com/?Action=ListUsers&Version=2010-05-08";

const ACCESS: (&str, &str) = ("AWS_ACCESS_KEY_ID", "AKIDEXAMPLE");

const SECRET: (&str, &str) = (
    "AWS_SECRET_ACCESS_KEY",
    "wJalrXUtnFEMI/K7MDENG+bPxRfiCYEXAMPLEKEY",
);

/// The header as it is published.
const SIGNED: &str =
    "AWS4-HMAC-SHA256 Credential=AKIDEXAMPLE/20150830/us-east-1/iam/aws4_request, SignedHeaders=content-type;host;x-amz-date, Signature=5d672d79c15b13162d9279b0855cfba6789a8edb4c82c400e06b5924a6f2b5d7";

/// Variables, and what becomes of the request.
static ENVIRONMENTS: [(Variables, &str); 4] = [
    (&[ACCESS, SECRET], SIGNED),
    (&[ACCESS], "failed to load signing credential"),
    (&[SECRET], "failed to load signing credential"),
    (&[ACCESS, ("AWS_SECRET_ACCESS_KEY", "")], "invalid key"),
];

#[test]
fn a_signer_signs_with_the_key_of_the_environment(rt: HostRuntime) {
    for (set, wanted) in &ENVIRONMENTS {
        is_text(&rt, signed_in(&rt, rt.alloc(), *set, LIST_USERS), *wanted);
    }
}

/// URIs that the service does not sign, and the message of the call's error.
static REFUSED: [(&str, &str); 2] = [
    ("/", "request without authority is invalid for signing"),
    (
        "https://iam.amazonaws.com/%20",
        "path with escapes is not supported",
    ),
];

#[test]
fn a_refusal_of_the_service_ends_the_call(rt: HostRuntime) {
    for (uri, wanted) in &REFUSED {
        let told = signed_in(&rt, rt.alloc(), &[ACCESS, SECRET], *uri);
        is_text(&rt, told, *wanted);
    }
}
