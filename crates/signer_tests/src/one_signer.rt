//! A signer of one's own on the desk: its credential, its rule, and calls that are driven from their
//! begin to their signed head. Its provider and its service answer at once.
ghost use Rattle.std.specs.Prelude.{◌≡◌, []};
ghost use Rattle.desk_parts.specs.Tables.{setup_of};

use crate::key::{Key, ToTheEnd, at};
use fixtures::{plain_head, push_header};
use sign_base::{CallId, Head, NoMemory, Octets, Timestamp};
use sign_desk::{AddError, Answer, Desk, Event, Loader, Reply, Verdict};
use std::alloc::Global;
use std::time::Duration;

/// A provider of keys, which counts how often it was asked.
#[derive(Debug, Drop)]
struct Keys {
    lifetime: Duration,
    asked: u64,
}

impl Keys {
    fn answer(&mut self, now: Timestamp) -> Answer<Key> {
        self.asked = self.asked.saturating_add(1);
        match now.checked_add(self.lifetime) {
            Some(expires) => Answer::Found(Key {
                number: self.asked,
                expires,
            }),
            None => Answer::Missing,
        }
    }
}

/// The head that the service makes of a path: it names the key in a header.
fn made(alloc: Global, path: &str, key: &Key) -> Result<Head, NoMemory<()>> {
    let value = format!(in alloc; "key {}", key.number)?;
    let mut head = plain_head(alloc, "GET", path)?;
    push_header(alloc, &mut head, b"authorization", value.as_bytes())?;
    Ok(head)
}

/// The last reply to a call that was driven.
type Driven = Result<Reply<Key>, NoMemory<()>>;

/// A desk with the provider of its one cache.
#[derive(Drop)]
struct KeySigner {
    alloc: Global,
    desk: Desk<Key, ToTheEnd>,
    keys: Keys,
}

impl KeySigner {
    /// Begins a call and drives it. Where an allocation fails the call is given up, so that none stays
    /// behind.
    fn sign(&mut self, call: CallId, path: &str, now: Timestamp) -> Driven {
        let begun = self.begin(call, path)?;
        if !matches!(begun, Reply::Begun) {
            return Ok(begun);
        }
        drop(begun);
        self.drive_or_give_up(call, path, now)
    }

    fn begin(&mut self, call: CallId, path: &str) -> Driven {
        let head = plain_head(self.alloc, "GET", path)?;
        Ok(self.step(Event::Begin {
            call,
            head,
            expires_in: Some(Duration::from_secs(60)),
        }))
    }

    /// Ends in `drop`, which is one call: the drops of an event's parts stand in no other body then.
    fn step(&mut self, event: Event<Key>) -> Reply<Key> {
        let reply = self.desk.step(&event);
        drop(event);
        reply
    }

    fn drive_or_give_up(&mut self, call: CallId, path: &str, now: Timestamp) -> Driven {
        let driven = self.drive(call, path, now);
        if !is_out_of_memory(&driven) {
            return driven;
        }
        drop(driven);
        drop(self.step(Event::Cancel { call }));
        Err(NoMemory { back: () })
    }

    /// Drives a begun call until it is signed or refused: the provider is asked only where the desk
    /// says so, and the service signs with what the desk hands out.
    fn drive(&mut self, call: CallId, path: &str, now: Timestamp) -> Driven {
        let reply = self.load(call, now);
        let Some(key) = key_of(&reply) else {
            return Ok(reply);
        };
        drop(reply);
        self.put_signed(call, path, &key)
    }

    fn load(&mut self, call: CallId, now: Timestamp) -> Reply<Key> {
        let reply = self.step(Event::Poll { call, now });
        if !matches!(reply, Reply::Ask { .. }) {
            return reply;
        }
        drop(reply);
        let answer = self.keys.answer(now);
        self.step(Event::Provided { call, now, answer })
    }

    fn put_signed(&mut self, call: CallId, path: &str, key: &Key) -> Driven {
        let answer = Verdict::Accepted(made(self.alloc, path, key)?);
        Ok(self.step(Event::Signed { call, answer }))
    }
}

/// The key with which the service is to sign.
fn key_of(reply: &Reply<Key>) -> Option<Key> {
    match reply {
        Reply::Sign { credential, .. } => Some(*credential),
        _ => None,
    }
}

fn is_out_of_memory(driven: &Driven) -> bool {
    match driven {
        Ok(Reply::OutOfMemory) | Err(_) => true,
        Ok(_) => false,
    }
}

/// The signer's one cache, rule and handle.
fn key_signer(alloc: Global) -> Option<KeySigner> {
    let mut desk = Desk::new(alloc);
    let Some(()) = add_one_of_each(&mut desk) else {
        drop(desk);
        return None;
    };
    let keys = Keys {
        lifetime: Duration::from_secs(600),
        asked: 0,
    };
    Some(KeySigner { alloc, desk, keys })
}

fn add_one_of_each(desk: &mut Desk<Key, ToTheEnd>) -> Option<()>
    requires { setup_of desk.old ≡ record { loaders = []; rules = []; handles = [] } }
{
    desk.add_cache(Loader::Single).ok()?;
    desk.add_rule(ToTheEnd).ok()?;
    desk.add_handle(0, 0).ok()?;
    Some(())
}

/// The first header of the head that a call at this second comes to.
fn signed(signer: &mut KeySigner, number: u64, second: i64) -> Option<Octets> {
    let now = at(signer.alloc, second)?;
    let reply = signer.sign(CallId { handle: 0, number }, "/a", now).ok()?;
    let value = first_header(signer.alloc, &reply);
    drop(reply);
    value
}

fn first_header(alloc: Global, reply: &Reply<Key>) -> Option<Octets> {
    match reply {
        Reply::Done { head } => head.headers.as_slice().first()?.value.try_clone(alloc).ok(),
        _ => None,
    }
}

/// Calls and their seconds, how often a key was asked for by then, and the header.
static SIGNED: [(u64, i64, u64, &str); 4] = [
    (1, 0, 1, "key 1"),
    (2, 300, 1, "key 1"),
    (3, 539, 1, "key 1"),
    (4, 540, 2, "key 2"),
];

/// A key serves as long as it lasts to the end of the operation, and then the next is asked for.
#[test]
fn a_key_is_asked_for_once_while_it_lasts(rt: HostRuntime) {
    let mut signer = key_signer(rt.alloc()).expect(&rt, "memory");
    for (number, second, asked, header) in &SIGNED {
        let value = signed(&mut signer, *number, *second).expect(&rt, "the call is signed");
        assert!(rt; (value.as_slice() == header.as_bytes()) & (signer.keys.asked == *asked));
    }
    assert!(rt; signer.desk.live() == 0);
    drop(signer);
}

/// What adding a cache answers. None where there are as many as a desk can number.
fn with_cache(desk: &mut Desk<Key, ToTheEnd>) -> Option<Result<u32, AddError>> {
    if desk.caches() == u32::MAX {
        return None;
    }
    Some(desk.add_cache(Loader::Single))
}

/// What adding a handle on the first cache and the first rule answers.
fn with_handle(desk: &mut Desk<Key, ToTheEnd>) -> Option<Result<u32, AddError>> {
    if desk.handles() == u32::MAX {
        return None;
    }
    Some(desk.add_handle(0, 0))
}

/// The place of a rule that is added.
fn with_rule(desk: &mut Desk<Key, ToTheEnd>) -> Option<u32> {
    if desk.rules() == u32::MAX {
        return None;
    }
    desk.add_rule(ToTheEnd).ok()
}

/// Whether a run begins a call, and asks a provider at its first poll.
fn is_run(alloc: Global, desk: &mut Desk<Key, ToTheEnd>) -> Option<bool> {
    let events = begin_and_poll(alloc)?;
    let replies = desk.run(events.as_slice());
    drop(events);
    Some(are_begun_and_ask(replies.ok()?.as_slice()))
}

fn begin_and_poll(alloc: Global) -> Option<Vec<Event<Key>>> {
    let call = CallId {
        handle: 0,
        number: 1,
    };
    let now = at(alloc, 5)?;
    let head = plain_head(alloc, "GET", "/a").ok()?;
    let begin = Event::Begin {
        call,
        head,
        expires_in: None,
    };
    Vec::from_array(alloc, [begin, Event::Poll { call, now }]).ok()
}

fn are_begun_and_ask(replies: &[Reply<Key>]) -> bool {
    matches!(replies, [Reply::Begun, Reply::Ask { provider: 0 }])
}

/// A handle is added where there is a cache and a rule, and nothing after a begin.
#[test]
fn adding_is_refused_with_its_cause(rt: HostRuntime) {
    let mut desk = Desk::new(rt.alloc());
    assert!(rt; with_handle(&mut desk) == Some(Err(AddError::NoCache(0))));
    assert!(rt; with_cache(&mut desk) == Some(Ok(0)));
    assert!(rt; with_handle(&mut desk) == Some(Err(AddError::NoRule(0))));
    assert!(rt; with_rule(&mut desk) == Some(0));
    assert!(rt; with_handle(&mut desk) == Some(Ok(0)));
    assert!(rt; is_run(rt.alloc(), &mut desk) == Some(true));
    assert!(rt; with_cache(&mut desk) == Some(Err(AddError::Late)));
    drop(desk);
}
