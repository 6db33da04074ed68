//! Heads with more headers than a header map may have names.
use crate::signed_heads::told;
use crate::suite::{NOW, PLAIN, moment, request_to};
use crate::told::is_text;
use fixtures::push_header;
use sign_base::Head;
use sign_request::HeaderSeeds;
use sigv4_core::sign_head_seeded;
use std::alloc::Global;
use std::hash::RandomState;
use std::process::Abort;

/// One more than a map of `http` may have names.
const MANY: u32 = 24_577;

/// The values of the headers that a signature of as many headers with one name brings, by Python's `hmac`.
const SIGNED: &str =
    "20150830T123600Z AWS4-HMAC-SHA256 Credential=AKIDEXAMPLE/20150830/us-east-1/service/aws4_request, SignedHeaders=h0;host;x-amz-date, Signature=3dac8d56e1a0c1bc2b26cd10f708bd51e8c1c937af2d109006018a6522b9012d";

#[test]
fn a_map_limits_the_names_and_not_the_headers(rt: HostRuntime) {
    let keys = HeaderSeeds::new(RandomState::new(&rt).expect(&rt, "keys"));
    is_text(&rt, signed(&rt, rt.alloc(), keys, true), SIGNED);
    is_text(&rt, signed(&rt, rt.alloc(), keys, false), "Head");
}

/// What is told of the suite's request with so many headers, all with one name or each with its own.
fn signed(rt: &impl Abort, alloc: Global, keys: HeaderSeeds, alike: bool) -> String {
    let mut by = request_to(rt, alloc, PLAIN);
    push_headers(rt, alloc, &mut by.head, alike);
    let now = moment(rt, NOW);
    let answer = sign_head_seeded(
        alloc,
        &by.head,
        &by.credential,
        &by.scope,
        &by.payload,
        now,
        keys,
    );
    drop(by);
    told(rt, alloc, answer)
}

fn push_headers(rt: &impl Abort, alloc: Global, head: &mut Head, alike: bool) {
    for number in 0..MANY {
        push_one(rt, alloc, head, if alike { 0 } else { number });
    }
}

fn push_one(rt: &impl Abort, alloc: Global, head: &mut Head, number: u32) {
    let name = format!(in alloc; "h{number}").expect(rt, "memory");
    push_header(alloc, head, name.as_bytes(), b"v").expect(rt, "memory");
    drop(name);
}
