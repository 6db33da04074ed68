//! A head that crosses to `http` and is committed.
use crate::times::heads::head_with;
use crate::times::names::{Name, colliding_names, ordinary_names};
use crate::times::{Work, is_alike, time};
use http::header::HeaderMap;
use http::request::Parts;
use sign_base::Head;
use sign_request::{HeaderSeeds, commit_seeded, parts_of_seeded};
use std::alloc::Global;
use std::hash::RandomState;
use std::process::Abort;
use std::time::{Clock, Duration};

const NAMES: u32 = 24_000;

/// The head of `http`.
fn crossed(rt: &impl Abort, alloc: Global, head: &Head, keys: HeaderSeeds) -> Box<Parts> {
    let parts = parts_of_seeded(alloc, head, keys).expect(rt, "a head");
    Box::new(alloc, parts).expect(rt, "memory")
}

/// Whether each of so many names is found.
fn are_found(headers: &HeaderMap) -> bool {
    let mut all = headers.keys_len() == NAMES as usize;
    for name in headers.keys() {
        all &= headers.contains_key(name);
    }
    all
}

/// Whether the names are found once the head crossed, and once it is committed.
fn finds_names(rt: &impl Abort, alloc: Global, head: &Head, keys: HeaderSeeds) {
    let mut parts = crossed(rt, alloc, head, keys);
    assert!(rt; are_found(&parts.headers));
    commit_seeded(alloc, &mut parts, head, keys).expect(rt, "a head");
    assert!(rt; are_found(&parts.headers));
}

#[test]
fn names_that_collide_are_found(rt: HostRuntime) {
    let keys = HeaderSeeds::new(RandomState::new(&rt).expect(&rt, "keys"));
    let names = colliding_names(&rt, rt.alloc(), NAMES);
    let head = head_with(&rt, rt.alloc(), names.as_slice());
    finds_names(&rt, rt.alloc(), &head, keys);
}

/// A head that is to cross.
#[derive(Drop)]
struct Crossing<'a> {
    head: &'a Head,
    keys: HeaderSeeds,
}

impl Work for Crossing<'_> {
    /// It crosses four times, and is committed once.
    fn is_done(&mut self, rt: &impl Abort, alloc: Global) -> bool {
        for _ in 0..3 {
            drop(crossed(rt, alloc, self.head, self.keys));
        }
        let mut parts = crossed(rt, alloc, self.head, self.keys);
        commit_seeded(alloc, &mut parts, self.head, self.keys).is_ok()
    }
}

/// What it takes a head with these names to cross.
fn time_of<R: Abort + Clock>(rt: &R, alloc: Global, names: &[Name], keys: HeaderSeeds) -> Duration {
    let head = head_with(rt, alloc, names);
    time(rt, alloc, &mut Crossing { head: &head, keys })
}

#[test]
fn a_map_takes_names_that_collide(rt: HostRuntime) {
    let keys = HeaderSeeds::new(RandomState::new(&rt).expect(&rt, "keys"));
    let colliding = colliding_names(&rt, rt.alloc(), NAMES);
    let ordinary = ordinary_names(&rt, rt.alloc(), NAMES);
    let one = time_of(&rt, rt.alloc(), colliding.as_slice(), keys);
    is_alike(
        &rt,
        one,
        time_of(&rt, rt.alloc(), ordinary.as_slice(), keys),
    );
}
