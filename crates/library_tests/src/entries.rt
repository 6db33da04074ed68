//! Debug texts of entries show no secret of a head, and of a credential what its type shows.
use crate::told::hides_as;
use fixtures::{Headers, head_with_headers};
use sequential_signer::{
    Answer, Entry, Event, GrantEntry, GrantEvent, GrantReply, Made, Reply, Verdict,
};
use sign_base::{CallId, Head, Timestamp};
use std::alloc::Global;
use std::fmt;
use std::process::Abort;

/// A credential whose author hides it.
#[derive(Clone, Copy)]
struct Key {
    number: u64,
}

impl fmt::Debug for Key {
    fn fmt<W: fmt::Write>(&self, f: &mut fmt::Formatter<W>) -> fmt::Result {
        f.write_str("Key(***)")
    }
}

const KEY: Key = Key { number: 736_573 };

const CALL: CallId = CallId {
    handle: 0,
    number: 1,
};

const HEADERS: Headers<'static> = &[("authorization", b"open sesame to the cave")];

fn signed(rt: &impl Abort, alloc: Global) -> Head {
    head_with_headers(alloc, "GET", "https://e.x/a?sig=sesame", HEADERS).expect(rt, "memory")
}

fn begun(head: Head) -> Event<Key> {
    Event::Begin {
        call: CALL,
        head,
        expires_in: None,
    }
}

fn accepted(head: Head) -> Event<Key> {
    Event::Signed {
        call: CALL,
        answer: Verdict::Accepted(head),
    }
}

fn done(head: Head) -> Reply<Key> {
    Reply::Done { head }
}

const BEGUN: &str =
    r#"Begin { call: CallId { handle: 0, number: 1 }, head: Head(***), expires_in: None }"#;

const ACCEPTED: &str =
    r#"Signed { call: CallId { handle: 0, number: 1 }, answer: Accepted(Head(***)) }"#;

const DONE: &str = r#"Done { head: Head(***) }"#;

#[test]
fn heads_of_events_and_replies_show_no_secret(rt: HostRuntime) {
    hides_as(&rt, rt.alloc(), &begun(signed(&rt, rt.alloc())), BEGUN);
    hides_as(
        &rt,
        rt.alloc(),
        &accepted(signed(&rt, rt.alloc())),
        ACCEPTED,
    );
    hides_as(&rt, rt.alloc(), &done(signed(&rt, rt.alloc())), DONE);
}

fn provided(now: Timestamp) -> Entry<Key> {
    Entry {
        event: Event::Provided {
            call: CALL,
            now,
            answer: Answer::Found(KEY),
        },
        reply: Reply::Sign {
            credential: KEY,
            wake: None,
        },
    }
}

fn found(now: Timestamp) -> GrantEntry<Key> {
    GrantEntry {
        event: GrantEvent::Provided {
            call: CALL,
            now,
            answer: Answer::Found(KEY),
        },
        reply: GrantReply::Grant { source: KEY },
    }
}

fn granted(now: Timestamp) -> GrantEntry<Key> {
    GrantEntry {
        event: GrantEvent::Granted {
            call: CALL,
            now,
            answer: Made::Made(KEY),
        },
        reply: GrantReply::Given { credential: KEY },
    }
}

const PROVIDED: &str =
    "Entry { event: Provided { call: CallId { handle: 0, number: 1 }, now: Timestamp { nanos: 7 }, answer: Found(Key(***)) }, reply: Sign { credential: Key(***), wake: None } }";

const FOUND: &str =
    "GrantEntry { event: Provided { call: CallId { handle: 0, number: 1 }, now: Timestamp { nanos: 7 }, answer: Found(Key(***)) }, reply: Grant { source: Key(***) } }";

const GRANTED: &str =
    "GrantEntry { event: Granted { call: CallId { handle: 0, number: 1 }, now: Timestamp { nanos: 7 }, answer: Made(Key(***)) }, reply: Given { credential: Key(***) } }";

#[test]
fn credentials_of_entries_show_what_their_type_shows(rt: HostRuntime) {
    let now = Timestamp::from_nanos(7).expect(&rt, "a moment");
    hides_as(&rt, rt.alloc(), &provided(now), PROVIDED);
    hides_as(&rt, rt.alloc(), &found(now), FOUND);
    hides_as(&rt, rt.alloc(), &granted(now), GRANTED);
}
