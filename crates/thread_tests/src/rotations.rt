//! Signers whose history is written away volume by volume: each journal goes on where the one before ended.
use crate::signers::{desk_of, head};
use fixtures::{Key, UntilNow};
use sequential_signer::{Answer, DeadlineRule, Entry, Event, SigningCredential, Verdict};
use sign_base::{CallId, EqualByValue, Timestamp};
use sign_desk::{Desk, same_reply};
use signer_shared::{Pass, RotateError, Rotated, RotatingSigner, Volume, VolumeError};
use std::alloc::Global;
use std::process::Abort;
use std::sync::Wait;

/// A desk of two caches, each with one handle.
type KeyDesk = Desk<Key, UntilNow>;

/// A signer of such a desk.
type KeySigner = RotatingSigner<Key, UntilNow>;

fn desk<R: Abort>(rt: &R, alloc: Global) -> KeyDesk {
    desk_of(alloc, UntilNow { place: 0 }).expect(rt, "memory")
}

/// A signer that goes on from two desks that are alike and have no live call.
pub fn signer<K, D, R>(rt: &R, desk: Desk<K, D>, plan: Desk<K, D>) -> RotatingSigner<K, D>
where
    K: SigningCredential + EqualByValue,
    D: DeadlineRule<Credential = K> + EqualByValue,
    R: Abort,
{
    assert!(rt; desk.live() == 0);
    let volume = Volume::open(desk).ok().expect(rt, "memory");
    assert!(rt; volume.is_opened_at(&plan));
    RotatingSigner::open(volume, plan)
}

/// The events of a call of the first handle that signs, in order. The second is answered `Sign` where the
/// cache holds a key, and the third is then left out.
fn event<R: Abort>(rt: &R, alloc: Global, number: u64, place: usize) -> Event<Key> {
    let call = CallId { handle: 0, number };
    let now = Timestamp::from_nanos(5).expect(rt, "a moment");
    match place {
        0 => Event::Begin {
            call,
            head: head(alloc).expect(rt, "memory"),
            expires_in: None,
        },
        1 => Event::Poll { call, now },
        2 => Event::Provided {
            call,
            now,
            answer: Answer::Found(Key { number: 7 }),
        },
        _ => Event::Signed {
            call,
            answer: Verdict::Accepted(head(alloc).expect(rt, "memory")),
        },
    }
}

/// A call that is signed at the signer. The first call of a cache loads.
fn sign<R: Abort + Wait>(
    rt: &R,
    alloc: Global,
    signer: &KeySigner,
    pass: &mut Pass<Key>,
    number: u64,
) {
    for place in 0..4usize {
        if place != 2 || number == 1 {
            let reply = signer.step(rt, pass, &event(rt, alloc, number, place));
            assert!(rt; !reply.is_out_of_memory());
        }
    }
}

/// Steps a desk by the events of a journal, and compares the replies.
pub fn replay<K, D, R>(rt: &R, desk: &mut Desk<K, D>, journal: &[Entry<K>])
where
    K: SigningCredential + EqualByValue,
    D: DeadlineRule<Credential = K>,
    R: Abort,
{
    for entry in journal {
        let reply = desk.step(&entry.event);
        assert!(rt; same_reply(&reply, &entry.reply));
    }
}

/// Two calls at the signer, whose history is then rotated: its journal has so many entries.
fn volume<R: Abort + Wait>(
    rt: &R,
    alloc: Global,
    signer: KeySigner,
    first: u64,
) -> Rotated<Key, UntilNow> {
    let mut pass = signer.pass().ok().expect(rt, "a pass");
    sign(rt, alloc, &signer, &mut pass, first);
    sign(rt, alloc, &signer, &mut pass, first.saturating_add(1));
    let passes = vec![in alloc; pass].ok().expect(rt, "memory");
    signer.rotate(passes).ok().expect(rt, "a rotated signer")
}

#[test]
fn each_journal_goes_on_where_the_one_before_ended(rt: HostRuntime) {
    let alloc = rt.alloc();
    let mut replayed = desk(&rt, alloc);
    let mut signer = signer(&rt, desk(&rt, alloc), desk(&rt, alloc));
    for (first, entries) in [(1, 7), (3, 6), (5, 6)] {
        let rotated = volume(&rt, alloc, signer, first);
        assert!(rt; rotated.journal.len() == entries);
        replay(&rt, &mut replayed, rotated.journal.as_slice());
        signer = rotated.signer;
    }
    let settled = signer
        .close(Vec::new(alloc))
        .ok()
        .expect(&rt, "a closed signer");
    assert!(rt; settled.journal.is_empty() && settled.desk.cached(0) == Some(&Key { number: 7 }));
}

/// A desk where a call of this number was begun and cancelled, unless it is 0.
fn begun<R: Abort>(rt: &R, alloc: Global, number: u64) -> KeyDesk {
    let mut desk = desk(rt, alloc);
    if number > 0 {
        let _begun = desk.step(&event(rt, alloc, number, 0));
        let _cancelled = desk.step(&Event::Cancel {
            call: CallId { handle: 0, number },
        });
    }
    desk
}

/// Why a volume that was opened at one desk is not closed under another as its plan. The desks are those
/// where calls of these numbers were begun.
fn closed<R: Abort>(rt: &R, alloc: Global, desk: u64, plan: u64) -> Option<VolumeError> {
    let desk = begun(rt, alloc, desk);
    assert!(rt; desk.live() == 0);
    let volume = Volume::open(desk).ok().expect(rt, "memory");
    match volume.close(begun(rt, alloc, plan), Vec::new(alloc)) {
        Ok(_) => None,
        Err(refused) => Some(refused.why),
    }
}

#[test]
fn a_plan_with_other_numbers_closes_no_volume(rt: HostRuntime) {
    for (desk, plan, why) in [
        (0, 0, None),
        (2, 2, None),
        (2, 1, Some(VolumeError::Plan)),
        (2, 0, Some(VolumeError::Plan)),
        (0, 2, Some(VolumeError::Plan)),
    ] {
        assert!(rt; closed(&rt, rt.alloc(), desk, plan) == why);
    }
}

/// Why a signer with a live call is not rotated.
fn with_a_live_call<R: Abort + Wait>(rt: &R, alloc: Global) -> Option<RotateError> {
    let signer = signer(rt, desk(rt, alloc), desk(rt, alloc));
    let mut pass = signer.pass().ok().expect(rt, "a pass");
    let _begun = signer.step(rt, &mut pass, &event(rt, alloc, 1, 0));
    let passes = vec![in alloc; pass].ok().expect(rt, "memory");
    match signer.rotate(passes) {
        Ok(_) => None,
        Err(refused) => Some(refused.why),
    }
}

#[test]
fn a_live_call_holds_a_rotation_up(rt: HostRuntime) {
    assert!(rt; with_a_live_call(&rt, rt.alloc()) == Some(RotateError::Live { calls: 1 }));
}
