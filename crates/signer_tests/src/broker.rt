//! A broker of one's own on a desk of granters: its provider and its granter answer at once.

use crate::key::{Key, ToTheEnd, at};
use grant_desk::{AddError, GrantDesk};
use sequential_signer::{Answer, GrantEvent, GrantReply, GrantWhy, Loader, Made};
use sign_base::{CallId, Timestamp};
use std::alloc::Global;

type KeyDesk = GrantDesk<Key, ToTheEnd>;

/// A broker, and how often its provider was asked.
#[derive(Drop)]
struct Broker {
    desk: KeyDesk,
    asked: u64,
}

impl Broker {
    /// A desk with one cache, one rule and one handle.
    fn new(alloc: Global) -> Option<Broker> {
        let mut desk = GrantDesk::new(alloc);
        desk.add_cache(Loader::Single).ok()?;
        desk.add_rule(ToTheEnd).ok()?;
        desk.add_handle(0, 0).ok()?;
        Some(Broker { desk, asked: 0 })
    }

    /// What the provider answers: another key each time, which expires at this moment.
    fn source(&mut self, expires: Timestamp) -> Answer<Key> {
        self.asked = self.asked.saturating_add(1);
        Answer::Found(Key {
            number: self.asked,
            expires,
        })
    }

    /// Drives a call that was begun to its last reply. What is found and made expires at this moment.
    fn drive(&mut self, call: CallId, now: Timestamp, expires: Timestamp) -> GrantReply<Key> {
        let mut reply = self.desk.step(&GrantEvent::Poll { call, now });
        if let GrantReply::Ask { .. } = reply {
            let answer = self.source(expires);
            reply = self.desk.step(&GrantEvent::Provided { call, now, answer });
        }
        match reply {
            GrantReply::Grant { source } => {
                let answer = Made::Made(Key {
                    number: source.number.saturating_add(100),
                    expires,
                });
                self.desk.step(&GrantEvent::Granted { call, now, answer })
            }
            other => other,
        }
    }
}

fn call(number: u64) -> CallId {
    CallId { handle: 0, number }
}

/// Begins a call at this second and drives it to the number of the key that is given. What is found and made
/// expires at that second.
fn given(alloc: Global, broker: &mut Broker, number: u64, second: i64, until: i64) -> Option<u64> {
    let call = call(number);
    let (now, expires) = (at(alloc, second)?, at(alloc, until)?);
    let begun = broker.desk.step(&GrantEvent::Begin {
        call,
        expires_in: None,
    });
    if !matches!(begun, GrantReply::Begun) {
        return None;
    }
    match broker.drive(call, now, expires) {
        GrantReply::Given { credential } => Some(credential.number),
        _ => None,
    }
}

/// Calls, their seconds and until when their keys are to serve; the key, and how often the source was asked.
static GIVEN: [(u64, i64, i64, u64, u64); 3] = [
    (1, 0, 600, 101, 1),
    (2, 300, 600, 101, 1),
    (3, 600, 900, 102, 2),
];

#[test]
fn a_source_is_loaded_once_while_it_is_fresh(rt: HostRuntime) {
    let mut broker = Broker::new(rt.alloc()).expect(&rt, "memory");
    for (number, second, until, want, asked) in &GIVEN {
        let key = given(rt.alloc(), &mut broker, *number, *second, *until);
        assert!(rt; (key == Some(*want)) & (broker.asked == *asked));
    }
    assert!(rt; broker.desk.live() == 0);
    drop(broker);
}

/// What adding a cache without providers answers. None where there are as many as a desk can number.
fn with_cache(desk: &mut KeyDesk) -> Option<Result<u32, AddError>> {
    if desk.caches() == u32::MAX {
        return None;
    }
    Some(desk.add_cache(Loader::Chain(0)))
}

/// What adding a handle on the first cache and the first rule answers.
fn with_handle(desk: &mut KeyDesk) -> Option<Result<u32, AddError>> {
    if desk.handles() == u32::MAX {
        return None;
    }
    Some(desk.add_handle(0, 0))
}

/// The place of a rule that is added.
fn with_rule(desk: &mut KeyDesk) -> Option<u32> {
    if desk.rules() == u32::MAX {
        return None;
    }
    desk.add_rule(ToTheEnd).ok()
}

/// Whether a run begins a call, and refuses it at its first poll.
fn is_run(alloc: Global, desk: &mut KeyDesk) -> Option<bool> {
    let (call, now) = (call(1), at(alloc, 5)?);
    let begin = GrantEvent::Begin {
        call,
        expires_in: None,
    };
    let replies = desk.run(&[begin, GrantEvent::Poll { call, now }]).ok()?;
    match replies.as_slice() {
        [GrantReply::Begun, GrantReply::Refused { why }] => Some(matches!(why, GrantWhy::Missing)),
        _ => Some(false),
    }
}

/// A handle is added where there is a cache and a rule, and nothing after a begin.
#[test]
fn adding_is_refused_with_its_cause(rt: HostRuntime) {
    let mut desk = GrantDesk::new(rt.alloc());
    assert!(rt; with_handle(&mut desk) == Some(Err(AddError::NoCache(0))));
    assert!(rt; with_cache(&mut desk) == Some(Ok(0)));
    assert!(rt; with_handle(&mut desk) == Some(Err(AddError::NoRule(0))));
    assert!(rt; with_rule(&mut desk) == Some(0));
    assert!(rt; with_handle(&mut desk) == Some(Ok(0)));
    assert!(rt; is_run(rt.alloc(), &mut desk) == Some(true));
    assert!(rt; with_cache(&mut desk) == Some(Err(AddError::Late)));
    drop(desk);
}
