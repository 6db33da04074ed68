//! The moments of polls and of providers' answers: each was told behind all other answers of the gate.
use crate::gates::Answers;
use crate::gates::Answers::{FailsLoads, ReadyFrom, Signs, SignsWithoutMemory};
use crate::serving::settled;
use crate::signers::{gate_of, jobs, signer_of};
use fixtures::Key;
use sequential_signer::{Entry, Event};
use sign_base::Timestamp;
use signer_shared::serve_jobs;
use std::alloc::Global;
use std::process::Abort;
use std::sync::Wait;

/// How the gate answers, the calls of a list, the turns, and the moments in the journal. Whatever is asked of
/// the gate takes a nanosecond: a clock, a provider, or a service.
type Row = (Answers, &'static [(u32, u64)], u64, &'static [i128]);

static ROWS: [Row; 5] = [
    // A poll at 0, a provider's answer at 1, which is handed over at 2, a service's at 3; then a poll at 4.
    (Signs, &[(0, 1), (0, 2)], 1, &[0, 2, 4]),
    (Signs, &[(0, 1), (1, 1)], 1, &[0, 2, 4, 6]),
    // Three turns.
    (ReadyFrom(2), &[(0, 1)], 3, &[0, 4]),
    (FailsLoads, &[(0, 1), (0, 2)], 1, &[0, 2, 3, 5]),
    (SignsWithoutMemory, &[(0, 1)], 1, &[0, 2]),
];

/// The moment of an event that has one.
fn moment_of(event: &Event<Key>) -> Option<Timestamp> {
    match event {
        Event::Poll { now, .. } | Event::Provided { now, .. } => Some(*now),
        _ => None,
    }
}

/// Whether the journal that a worker leaves has the moments of its row.
fn has_moments<R: Wait + Abort>(rt: &R, alloc: Global, row: &Row) -> bool {
    let gate = gate_of(alloc, row.0).expect(rt, "a moment");
    let jobs = jobs(alloc, row.1).expect(rt, "memory");
    let signer = signer_of(alloc).expect(rt, "memory");
    let mut pass = signer.pass().ok().expect(rt, "memory");
    serve_jobs(rt, &signer, &mut pass, jobs.as_slice(), &gate, row.2);
    let settled = settled(rt, alloc, signer, pass);
    let moments = told(rt, alloc, settled.journal.as_slice());
    is_same(moments.as_slice(), row.3)
}

fn is_same(told: &[i128], wanted: &[i128]) -> bool {
    told == wanted
}

fn told<R: Abort>(rt: &R, alloc: Global, journal: &[Entry<Key>]) -> Vec<i128> {
    let mut moments = Vec::new(alloc);
    for entry in journal {
        if let Some(moment) = moment_of(&entry.event) {
            moments.push(moment.as_nanos()).ok().expect(rt, "memory");
        }
    }
    moments
}

#[test]
fn a_moment_is_told_behind_all_other_answers(rt: HostRuntime) {
    for row in &ROWS {
        assert!(rt; has_moments(&rt, rt.alloc(), row), "{row:?}");
    }
}
