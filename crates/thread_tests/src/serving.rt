//! What workers count, gate by gate and list by list, how often they ask their gates, and that they leave no
//! call behind that is not over.
use crate::gates::Answers;
use crate::gates::Answers::{
    FailsLoads, HasNoCredential, LoadsMeet, LoadsWithoutMemory, NeverReady, ReadyFrom,
    RejectsHeads, Signs, SignsWithoutMemory,
};
use crate::signers::{KeySigner, gate_of, jobs, signer_of};
use fixtures::{Key, UntilNow};
use sequential_signer::{Entry, Event, Reply};
use signer_shared::{Job, Pass, Served, Settled, serve_all, serve_jobs};
use std::alloc::Global;
use std::process::Abort;
use std::sync::Wait;
use std::thread::Threads;

/// How the gate answers, the calls of a list, the turns; done, refused, not now, given up; whether memory
/// ran out; how often the gate is asked for a load, and for a verdict.
type Row = (
    Answers,
    &'static [(u32, u64)],
    u64,
    [u64; 4],
    bool,
    (u64, u64),
);

static ROWS: [Row; 19] = [
    (Signs, &[], 1, [0, 0, 0, 0], false, (0, 0)),
    (Signs, &[(0, 1), (0, 2)], 1, [2, 0, 0, 0], false, (1, 2)),
    (Signs, &[(0, 1), (1, 1)], 1, [2, 0, 0, 0], false, (2, 2)),
    (
        RejectsHeads,
        &[(0, 1), (0, 2)],
        1,
        [0, 2, 0, 0],
        false,
        (1, 2),
    ),
    (
        FailsLoads,
        &[(0, 1), (1, 1)],
        1,
        [0, 2, 0, 0],
        false,
        (2, 0),
    ),
    (
        HasNoCredential,
        &[(0, 1), (1, 1)],
        1,
        [0, 2, 0, 0],
        false,
        (2, 0),
    ),
    // A gate is asked once a turn.
    (
        ReadyFrom(1),
        &[(0, 1), (0, 2)],
        4,
        [2, 0, 0, 0],
        false,
        (2, 2),
    ),
    (
        ReadyFrom(2),
        &[(0, 1), (0, 2)],
        3,
        [2, 0, 0, 0],
        false,
        (3, 2),
    ),
    (
        ReadyFrom(3),
        &[(0, 1), (0, 2)],
        3,
        [0, 0, 0, 2],
        false,
        (6, 0),
    ),
    // A call that was given up leaves its turn to the next.
    (
        NeverReady,
        &[(0, 1), (0, 2)],
        3,
        [0, 0, 0, 2],
        false,
        (6, 0),
    ),
    (
        NeverReady,
        &[(0, 1), (0, 2)],
        0,
        [0, 0, 0, 2],
        false,
        (0, 0),
    ),
    (Signs, &[(0, 1)], 0, [0, 0, 0, 1], false, (0, 0)),
    // The work stops at the first job that finds no memory.
    (
        LoadsWithoutMemory,
        &[(0, 1), (0, 2)],
        1,
        [0, 0, 0, 0],
        true,
        (1, 0),
    ),
    (
        SignsWithoutMemory,
        &[(0, 1), (0, 2)],
        1,
        [0, 0, 0, 0],
        true,
        (1, 1),
    ),
    // A number that is not above the last of its handle, and a handle that does not exist.
    (Signs, &[(0, 2), (0, 1)], 1, [1, 0, 1, 0], false, (1, 1)),
    (Signs, &[(0, 1), (0, 1)], 1, [1, 0, 1, 0], false, (1, 1)),
    (Signs, &[(2, 1), (0, 1)], 1, [1, 0, 1, 0], false, (1, 1)),
    (
        NeverReady,
        &[(2, 1), (0, 1)],
        1,
        [0, 0, 1, 1],
        false,
        (1, 0),
    ),
    (
        LoadsWithoutMemory,
        &[(2, 1), (0, 1)],
        1,
        [0, 0, 1, 0],
        true,
        (1, 0),
    ),
];

/// What a worker counts in a row, and how often it asks the gate. Each call is over then, and one at which an
/// allocation failed by its cancel. No journal here has 16 entries.
fn served<R: Wait + Abort>(rt: &R, alloc: Global, row: &Row) -> (Served, (u64, u64)) {
    let gate = gate_of(alloc, row.0).expect(rt, "a moment");
    let jobs = jobs(alloc, row.1).expect(rt, "memory");
    let signer = signer_of(alloc).expect(rt, "memory");
    let mut pass = signer.pass().ok().expect(rt, "memory");
    let served = serve_jobs(rt, &signer, &mut pass, jobs.as_slice(), &gate, row.2);
    let settled = settled(rt, alloc, signer, pass);
    assert!(rt; settled.desk.live() == 0, "{row:?}");
    assert!(rt; !row.4 || is_cancelled(settled.journal.last()), "{row:?}");
    assert!(rt; settled.journal.capacity() <= 64, "{row:?}");
    (served, gate.counts())
}

/// The signer, closed with its only pass.
pub fn settled<R: Wait + Abort>(
    rt: &R,
    alloc: Global,
    signer: KeySigner,
    pass: Pass<Key>,
) -> Settled<Key, UntilNow> {
    let mut passes = Vec::with_capacity(alloc, 1).expect(rt, "memory");
    passes.push_reserved(pass);
    signer.close(passes).ok().expect(rt, "a closed signer")
}

/// Whether this is a cancel, after which the call is over.
fn is_cancelled(entry: Option<&Entry<Key>>) -> bool {
    match entry {
        Some(entry) => {
            matches!(entry.event, Event::Cancel { .. })
                && matches!(entry.reply, Reply::Cancelled { .. })
        }
        None => false,
    }
}

#[test]
fn workers_count_and_ask_as_their_gates_answer(rt: HostRuntime) {
    for row in &ROWS {
        let [done, refused, not_now, given_up] = row.3;
        let counts = Served {
            done,
            refused,
            not_now,
            given_up,
            out_of_memory: row.4,
        };
        assert!(rt; served(&rt, rt.alloc(), row) == (counts, row.5), "{row:?}");
    }
}

/// What the workers of two lists count, whose loads wait for each other.
fn met<R: Threads + Wait + Sync + Abort>(rt: &R, alloc: Global, signer: KeySigner) -> Vec<Served> {
    let gate = gate_of(alloc, LoadsMeet).expect(rt, "a moment");
    let work = two_lists(alloc).expect(rt, "memory");
    assert!(rt; work.len() == 2);
    let pooled = serve_all(rt, signer, work.as_slice(), &gate, 1);
    pooled.ok().expect(rt, "a closed signer").served
}

/// A list of one job for each cache.
fn two_lists(alloc: Global) -> Option<Vec<Vec<Job>>> {
    let mut work = Vec::new(alloc);
    work.push(jobs(alloc, &[(0, 1)])?).ok()?;
    work.push(jobs(alloc, &[(1, 1)])?).ok()?;
    Some(work)
}

#[test]
fn two_workers_meet(rt: HostRuntime) {
    let signer = signer_of(rt.alloc()).expect(&rt, "memory");
    let counts = met(&rt, rt.alloc(), signer);
    assert!(rt; counts.len() == 2 && counts.iter().all(|served| served.done == 1));
}
