//! An auditor with ample memory: a right claim is legal, any other is answered by the reply that is due, and
//! the calls ahead are named.
ghost use Rattle.std.specs.Prelude.{[], IfSome};
ghost use Rattle.sequential_signer.specs.Policy.{policy_for};
ghost use Rattle.sign_desk.specs.DeskState.{Represents};

use fixtures::{Key, UntilNow, plain_head};
use sequential_signer::{DeadlineRule, Event, Loader, Reply, SigningCredential, same_reply};
use sign_audit::{Audit, Claim};
use sign_base::{CallId, Timestamp};
use sign_desk::Desk;
use std::alloc::Global;

const FIRST: CallId = CallId {
    handle: 0,
    number: 1,
};

const SECOND: CallId = CallId {
    handle: 0,
    number: 2,
};

/// A desk with one cache and one handle.
fn desk_of<K: SigningCredential, D: DeadlineRule<Credential = K>>(
    alloc: Global,
    rule: D,
) -> Option<Desk<K, D>>
    ensures { IfSome result
        (λ desk. Represents (policy_for K.SigningCredential D.DeadlineRule) desk []) }
{
    let mut desk = Desk::new(alloc);
    let rule = desk.add_rule(rule).ok()?;
    desk.add_cache_and_handle(Loader::Single, rule).ok()?;
    Some(desk)
}

fn begin(alloc: Global, call: CallId) -> Option<Event<Key>> {
    let head = plain_head(alloc, "GET", "https://e.x/").ok()?;
    Some(Event::Begin {
        call,
        head,
        expires_in: None,
    })
}

fn poll(call: CallId) -> Option<Event<Key>> {
    let now = Timestamp::from_nanos(5)?;
    Some(Event::Poll { call, now })
}

/// Whether the wrong reply is answered by the right one, which is legal then.
fn judges(
    audit: &mut Audit<Key, UntilNow>,
    event: Option<Event<Key>>,
    wrong: Reply<Key>,
    right: Reply<Key>,
) -> bool {
    let Some(event) = event else {
        return false;
    };
    let Claim::Due(due) = audit.claim(&event, &wrong) else {
        return false;
    };
    same_reply(&due, &right) && matches!(audit.claim(&event, &right), Claim::Legal)
}

/// Two calls are begun; the first is to ask a provider, and the second waits for it.
#[test]
fn claims_are_judged(rt: HostRuntime) {
    let alloc = rt.alloc();
    let desk = desk_of(alloc, UntilNow { place: 0 }).expect(&rt, "memory");
    let mut audit = Audit::new(desk).ok().expect(&rt, "memory");
    let begun = judges(
        &mut audit,
        begin(alloc, FIRST),
        Reply::Pending,
        Reply::Begun,
    ) && judges(
        &mut audit,
        begin(alloc, SECOND),
        Reply::NotNow,
        Reply::Begun,
    );
    assert!(rt; begun);
    let ask = Reply::Ask { provider: 0 };
    let polled = judges(&mut audit, poll(FIRST), Reply::Pending, ask)
        && judges(&mut audit, poll(SECOND), Reply::OutOfMemory, Reply::Pending)
        && judges(&mut audit, poll(SECOND), Reply::NotNow, Reply::Pending);
    assert!(rt; polled);
    let ahead = match audit.blockers(SECOND) {
        Err(_) => audit.blockers(SECOND),
        ahead => ahead,
    };
    let ahead = ahead.ok().expect(&rt, "memory");
    assert!(rt; ahead.as_slice() == &[FIRST] as &[CallId]);
}
