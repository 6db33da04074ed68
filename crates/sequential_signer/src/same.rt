//! Whether two values are the same: heads, events, replies and entries. No memory is taken.
ghost use Rattle.std.specs.Prelude.{◌≡◌, ◌≢◌, MatchBool};

use crate::event::{Answer, Entry, Event, Reply, Verdict, Why};
use sign_base::{EqualByValue, Field, Head, Octets, is_same};

fn same_octets(a: &Octets, b: &Octets) -> bool
    ensures { MatchBool result (a.now ≡ b.now) (a.now ≢ b.now) }
{
    a.as_slice() == b.as_slice()
}

fn same_field(a: &Field, b: &Field) -> bool
    ensures { MatchBool result (a.now ≡ b.now) (a.now ≢ b.now) }
{
    same_octets(&a.name, &b.name) && same_octets(&a.value, &b.value)
}

fn same_fields(a: &[Field], b: &[Field]) -> bool
    ensures { MatchBool result (a.now ≡ b.now) (a.now ≢ b.now) }
{
    if a.len() != b.len() {
        return false;
    }
    for i in 0..a.len() {
        if !same_field(&a[i], &b[i]) {
            return false;
        }
    }
    true
}

/// Whether two heads are the same.
pub fn same_head(a: &Head, b: &Head) -> bool
    ensures { MatchBool result (a.now ≡ b.now) (a.now ≢ b.now) }
{
    same_octets(&a.method, &b.method)
        && same_octets(&a.uri, &b.uri)
        && a.version == b.version
        && same_fields(a.headers.as_slice(), b.headers.as_slice())
}

fn same_answer<K: EqualByValue>(a: &Answer<K>, b: &Answer<K>) -> bool
    ensures { MatchBool result (a.now ≡ b.now) (a.now ≢ b.now) }
{
    match a {
        Answer::Found(mine) => match b {
            Answer::Found(theirs) => is_same(mine, theirs),
            _ => false,
        },
        Answer::Missing => matches!(b, Answer::Missing),
        Answer::Failed(mine) => match b {
            Answer::Failed(theirs) => *mine == *theirs,
            _ => false,
        },
    }
}

fn same_verdict(a: &Verdict, b: &Verdict) -> bool
    ensures { MatchBool result (a.now ≡ b.now) (a.now ≢ b.now) }
{
    match a {
        Verdict::Accepted(mine) => match b {
            Verdict::Accepted(theirs) => same_head(mine, theirs),
            Verdict::Failed(_) => false,
        },
        Verdict::Failed(mine) => match b {
            Verdict::Failed(theirs) => *mine == *theirs,
            Verdict::Accepted(_) => false,
        },
    }
}

/// Whether two events are the same.
pub fn same_event<K: EqualByValue>(a: &Event<K>, b: &Event<K>) -> bool
    ensures { MatchBool result (a.now ≡ b.now) (a.now ≢ b.now) }
{
    match a {
        Event::Begin {
            call,
            head,
            expires_in,
        } => match b {
            Event::Begin {
                call: other,
                head: theirs,
                expires_in: their_expires_in,
            } => *call == *other && *expires_in == *their_expires_in && same_head(head, theirs),
            _ => false,
        },
        Event::Poll { call, now } => match b {
            Event::Poll {
                call: other,
                now: then,
            } => *call == *other && *now == *then,
            _ => false,
        },
        Event::Provided { call, now, answer } => match b {
            Event::Provided {
                call: other,
                now: then,
                answer: theirs,
            } => *call == *other && *now == *then && same_answer(answer, theirs),
            _ => false,
        },
        Event::Signed { call, answer } => match b {
            Event::Signed {
                call: other,
                answer: theirs,
            } => *call == *other && same_verdict(answer, theirs),
            _ => false,
        },
        Event::Cancel { call } => match b {
            Event::Cancel { call: other } => *call == *other,
            _ => false,
        },
    }
}

fn same_why(a: &Why, b: &Why) -> bool
    ensures { MatchBool result (a.now ≡ b.now) (a.now ≢ b.now) }
{
    match a {
        Why::Missing => matches!(b, Why::Missing),
        Why::Short(deadline) => match b {
            Why::Short(theirs) => *deadline == *theirs,
            _ => false,
        },
        Why::Range => matches!(b, Why::Range),
        Why::Loader(error) => match b {
            Why::Loader(theirs) => *error == *theirs,
            _ => false,
        },
        Why::Service(error) => match b {
            Why::Service(theirs) => *error == *theirs,
            _ => false,
        },
    }
}

/// Whether two replies are the same.
pub fn same_reply<K: EqualByValue>(a: &Reply<K>, b: &Reply<K>) -> bool
    ensures { MatchBool result (a.now ≡ b.now) (a.now ≢ b.now) }
{
    match a {
        Reply::Begun => matches!(b, Reply::Begun),
        Reply::Pending => matches!(b, Reply::Pending),
        Reply::NotNow => matches!(b, Reply::NotNow),
        Reply::OutOfMemory => matches!(b, Reply::OutOfMemory),
        Reply::Ask { provider } => match b {
            Reply::Ask { provider: theirs } => *provider == *theirs,
            _ => false,
        },
        Reply::Sign { credential, wake } => match b {
            Reply::Sign {
                credential: theirs,
                wake: woken,
            } => *wake == *woken && is_same(credential, theirs),
            _ => false,
        },
        Reply::Refused { why, wake } => match b {
            Reply::Refused {
                why: theirs,
                wake: woken,
            } => *wake == *woken && same_why(why, theirs),
            _ => false,
        },
        Reply::Done { head } => match b {
            Reply::Done { head: theirs } => same_head(head, theirs),
            _ => false,
        },
        Reply::Cancelled { wake } => match b {
            Reply::Cancelled { wake: woken } => *wake == *woken,
            _ => false,
        },
    }
}

/// Whether two entries are the same.
pub fn same_entry<K: EqualByValue>(a: &Entry<K>, b: &Entry<K>) -> bool
    ensures { MatchBool result (a.now ≡ b.now) (a.now ≢ b.now) }
{
    same_event(&a.event, &b.event) && same_reply(&a.reply, &b.reply)
}
