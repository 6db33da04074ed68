//! A link that is given out, and a gateway that lets in who holds it: the example of docs/GUIDE.md.
use crate::suite::{PUBLISHED, Suite, link_for_ten_minutes, moment, published};
use sign_base::{Head, NoMemory, Timestamp};
use sigv4_core::{SigCredential, SigScope};
use sigv4_presign::round_trip::made_and_checked;
use sigv4_presign::{Checked, verify};
use std::alloc::Global;
use std::process::Abort;

/// The status of HTTP that a gateway answers a request with, by what its link was found to be.
fn status_of(found: Checked) -> u16 {
    match found {
        Checked::Valid => 200,
        Checked::Head | Checked::Authority | Checked::Path | Checked::Shape => 400,
        Checked::Credential | Checked::Early | Checked::Late | Checked::Signature => 403,
    }
}

/// Lets a request in, or answers why not.
fn admit(
    alloc: Global,
    request: &Head,
    credential: &SigCredential,
    scope: &SigScope,
    now: Timestamp,
) -> Result<u16, NoMemory<()>> {
    Ok(status_of(verify(alloc, request, credential, scope, now)?))
}

const SECOND: i128 = 1_000_000_000;

/// Moments, and what the gateway answers then to a link for ten minutes from the published moment on.
static ANSWERS: [(i128, u16); 5] = [
    (PUBLISHED - SECOND, 403),
    (PUBLISHED, 200),
    (PUBLISHED + 300 * SECOND, 200),
    (PUBLISHED + 599 * SECOND, 200),
    (PUBLISHED + 600 * SECOND, 403),
];

#[test]
fn a_gateway_lets_in_who_holds_a_link(rt: HostRuntime) {
    let by = published(&rt, rt.alloc());
    let link = link_for_ten_minutes(&rt, rt.alloc(), &by);
    are_answered(&rt, rt.alloc(), &by, &link);
    drop(link);
    drop(by);
}

fn are_answered(rt: &impl Abort, alloc: Global, by: &Suite, link: &Head) {
    for (nanos, wanted) in &ANSWERS {
        is_answered(rt, alloc, by, link, *nanos, *wanted);
    }
    is_answered(rt, alloc, by, &by.head, PUBLISHED, 400);
}

/// The gateway answers this status to a request at this moment.
fn is_answered(
    rt: &impl Abort,
    alloc: Global,
    by: &Suite,
    request: &Head,
    nanos: i128,
    wanted: u16,
) {
    let now = moment(rt, nanos);
    let status = admit(alloc, request, &by.credential, &by.scope, now);
    let status = status.expect(rt, "memory");
    assert!(rt; status == wanted, "{status} at {nanos}");
}

/// What is found of a link for ten minutes at these moments, by who only has its method and its URI.
static FOUND: [(i128, Checked); 4] = [
    (PUBLISHED - SECOND, Checked::Early),
    (PUBLISHED, Checked::Valid),
    (PUBLISHED + 599 * SECOND, Checked::Valid),
    (PUBLISHED + 600 * SECOND, Checked::Late),
];

#[test]
fn a_link_that_is_made_and_comes_back_is_valid_for_its_time(rt: HostRuntime) {
    let by = published(&rt, rt.alloc());
    for (nanos, wanted) in &FOUND {
        is_found(&rt, rt.alloc(), &by, *nanos, *wanted);
    }
    drop(by);
}

fn is_found(rt: &impl Abort, alloc: Global, by: &Suite, nanos: i128, wanted: Checked) {
    let found = found_at(alloc, by, moment(rt, PUBLISHED), moment(rt, nanos));
    assert!(rt; found == Some(wanted), "{nanos}");
}

fn found_at(alloc: Global, by: &Suite, made: Timestamp, arrived: Timestamp) -> Option<Checked> {
    made_and_checked(
        alloc,
        &by.head,
        &by.credential,
        &by.scope,
        600,
        made,
        arrived,
    )
    .ok()
}
