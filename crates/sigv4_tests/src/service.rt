//! What a service of a signer answers to heads that a program makes of its own, and with a duration.
use crate::signed_heads::{BEFORE_YEAR_0, SIGNED, last_values};
use crate::suite::{NOW, PLAIN, Suite, moment, request_to};
use crate::told::{is_text, refusal, text_of};
use credentials::{Polled, SignRequest};
use sign_base::Head;
use sigv4_core::{FixedMoment, Payload, SigService};
use std::alloc::Global;
use std::process::Abort;
use std::time::Duration;

/// URIs, nanoseconds since 1970, and what is told of the poll.
static POLLS: [(&str, i128, &str); 5] = [
    (PLAIN, NOW, SIGNED),
    ("e.x/a", NOW, "RequestInvalid: head not accepted"),
    (
        "/",
        NOW,
        "RequestInvalid: request without authority is invalid for signing",
    ),
    (
        "https://e.x/%20",
        NOW,
        "RequestInvalid: path with escapes is not supported",
    ),
    (PLAIN, BEFORE_YEAR_0, "RequestInvalid: moment out of range"),
];

#[test]
fn a_service_signs_or_names_the_cause(rt: HostRuntime) {
    for (uri, nanos, wanted) in &POLLS {
        is_text(&rt, told_of(&rt, rt.alloc(), *uri, *nanos), *wanted);
    }
}

fn told_of(rt: &impl Abort, alloc: Global, uri: &str, nanos: i128) -> String {
    let mut by = request_to(rt, alloc, uri);
    let service = service(rt, alloc, &by);
    let answer = polled(rt, alloc, &service, &mut by, FixedMoment(moment(rt, nanos)));
    drop(service);
    let told = told(rt, alloc, answer, &by.head);
    drop(by);
    told
}

fn service(rt: &impl Abort, alloc: Global, by: &Suite) -> Box<SigService<FixedMoment>> {
    let service = SigService::new(
        by.scope.try_clone(alloc).expect(rt, "memory"),
        Payload::of(alloc, b"").expect(rt, "memory"),
    );
    Box::new(alloc, service).expect(rt, "memory")
}

/// What the poll of a work answers that is to serve for an hour.
fn polled(
    rt: &impl Abort,
    alloc: Global,
    service: &SigService<FixedMoment>,
    by: &mut Suite,
    context: FixedMoment,
) -> Polled<()> {
    let hour = Some(Duration::from_secs(3_600));
    let work = service.sign_request(alloc, &context, &by.credential, hour);
    let mut work = work.expect(rt, "memory");
    service.poll_sign(alloc, &context, &mut work, &mut by.head)
}

fn told(rt: &impl Abort, alloc: Global, answer: Polled<()>, head: &Head) -> String {
    match answer {
        Polled::Ready(()) => last_values(rt, alloc, head),
        Polled::Failed(error) => refusal(rt, alloc, Some(error)),
        Polled::Pending => text_of(rt, alloc, b"pending"),
        Polled::OutOfMemory => text_of(rt, alloc, b"out of memory"),
    }
}
