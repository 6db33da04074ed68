//! A signer with keys, whose calls carry heads with many headers.
use crate::times::heads::head_with;
use crate::times::names::{Name, colliding_names, ordinary_names};
use crate::times::objects::{Finds, LeavesHeads};
use crate::times::{Work, is_alike, time};
use credentials::Providers;
use http::request::Parts;
use sign_base::Timestamp;
use sign_request::{HeaderSeeds, parts_of_seeded};
use signer::{SignAnswer, Signer};
use std::alloc::Global;
use std::hash::RandomState;
use std::process::Abort;
use std::time::{Clock, Duration};

const NAMES: u32 = 24_000;

/// A request, and the signer that is to sign it.
#[derive(Drop)]
struct Signing<'a> {
    signer: &'a mut Signer<Finds, LeavesHeads>,
    req: &'a mut Parts,
    now: Timestamp,
}

impl Work for Signing<'_> {
    /// The first poll of a call ends it as done.
    fn is_done(&mut self, rt: &impl Abort, alloc: Global) -> bool {
        assert!(rt; self.signer.desk().handles() > 0);
        let sign = self.signer.sign(0, self.req, None).expect(rt, "a call");
        let poll = self.signer.poll(sign, self.req, self.now);
        let is_done = matches!(&poll.answer, SignAnswer::Done);
        drop(poll);
        is_done
    }
}

fn signer_with(
    rt: &impl Abort,
    alloc: Global,
    keys: HeaderSeeds,
) -> Box<Signer<Finds, LeavesHeads>> {
    let signer = Signer::new(alloc, (), Providers::Single(Finds), LeavesHeads).ok();
    let signer = signer.expect(rt, "memory").with_header_seeds(keys);
    Box::new(alloc, signer).expect(rt, "memory")
}

/// A request with headers of these names.
fn request(rt: &impl Abort, alloc: Global, names: &[Name], keys: HeaderSeeds) -> Box<Parts> {
    let head = head_with(rt, alloc, names);
    let parts = parts_of_seeded(alloc, &head, keys).expect(rt, "a head");
    Box::new(alloc, parts).expect(rt, "memory")
}

/// What a call takes whose request has headers of these names.
fn time_of<R: Abort + Clock>(rt: &R, alloc: Global, names: &[Name], keys: HeaderSeeds) -> Duration {
    let mut signer = signer_with(rt, alloc, keys);
    let mut req = request(rt, alloc, names, keys);
    let mut signing = Signing {
        signer: &mut signer,
        req: &mut req,
        now: Timestamp::from_nanos(5).expect(rt, "a moment"),
    };
    time(rt, alloc, &mut signing)
}

#[test]
fn a_signer_takes_names_that_collide(rt: HostRuntime) {
    let keys = HeaderSeeds::new(RandomState::new(&rt).expect(&rt, "keys"));
    let colliding = colliding_names(&rt, rt.alloc(), NAMES);
    let ordinary = ordinary_names(&rt, rt.alloc(), NAMES);
    let one = time_of(&rt, rt.alloc(), colliding.as_slice(), keys);
    is_alike(
        &rt,
        one,
        time_of(&rt, rt.alloc(), ordinary.as_slice(), keys),
    );
}
