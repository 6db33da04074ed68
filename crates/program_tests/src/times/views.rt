//! `signctl view` on a line with as many headers as a line holds.
use crate::ran::{bytes, words_of};
use crate::times::names::{Name, colliding_names, ordinary_names};
use crate::times::{Work, is_alike, time};
use sign_io::{MemorySink, MemorySource};
use signctl_core::{HeaderSeeds, Status, run};
use std::alloc::Global;
use std::hash::RandomState;
use std::process::Abort;
use std::time::{Clock, Duration};

const NAMES: u32 = 6_500;

/// The bytes of these names where each is shown, after a space.
const SHOWN: usize = 58_500;

/// The bytes that an answer has room for.
const ROOM: usize = 1_048_576;

/// A line to view.
#[derive(Drop)]
struct View<'a> {
    line: &'a str,
    keys: HeaderSeeds,
}

impl Work for View<'_> {
    /// Every name is shown.
    fn is_done(&mut self, rt: &impl Abort, alloc: Global) -> bool {
        let words = words_of(rt, alloc, "view");
        let mut source = MemorySource::new(bytes(rt, alloc, self.line));
        let mut sink = MemorySink::new(alloc, ROOM).ok().expect(rt, "memory");
        let status = run(alloc, words.as_slice(), &mut source, &mut sink, self.keys);
        status == Status::Done && sink.written().len() >= SHOWN
    }
}

/// A line with headers of these names in their order.
fn line_with(rt: &impl Abort, alloc: Global, names: &[Name]) -> String {
    let mut line = String::from_str(alloc, "GET https://e.x/ 1.1").expect(rt, "memory");
    for name in names {
        push_header(rt, &mut line, name);
    }
    line
}

fn push_header(rt: &impl Abort, line: &mut String, name: &[u8]) {
    line.push(' ').expect(rt, "memory");
    for letter in name {
        line.push(char::from(*letter)).expect(rt, "memory");
    }
    line.push(':').expect(rt, "memory");
}

/// What the view of a line takes that has headers of these names.
fn time_of<R: Abort + Clock>(rt: &R, alloc: Global, names: &[Name], keys: HeaderSeeds) -> Duration {
    let line = line_with(rt, alloc, names);
    let mut view = View {
        line: line.as_str(),
        keys,
    };
    time(rt, alloc, &mut view)
}

#[test]
fn a_view_takes_names_that_collide(rt: HostRuntime) {
    let keys = HeaderSeeds::new(RandomState::new(&rt).expect(&rt, "keys"));
    let colliding = colliding_names(&rt, rt.alloc(), NAMES);
    let ordinary = ordinary_names(&rt, rt.alloc(), NAMES);
    let one = time_of(&rt, rt.alloc(), colliding.as_slice(), keys);
    is_alike(
        &rt,
        one,
        time_of(&rt, rt.alloc(), ordinary.as_slice(), keys),
    );
}
