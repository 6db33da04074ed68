//! Batches of jobs at signers with one cache, by eight workers that have a handle each: what calls that wait
//! for a load leave in the journal, and how a history goes on behind each batch.
use crate::gates::Answers::{LoadsSlowly, Signs};
use crate::gates::{Answers, TestGate};
use crate::rotations::{replay, signer};
use crate::signers::jobs;
use pool_jobs::pool_desk;
use sign_base::Timestamp;
use sign_desk::Desk;
use signctl_format::{ScriptCredential, ScriptRule};
use signer_shared::{Job, Rotated, RotatingSigner};
use std::alloc::Global;
use std::process::Abort;
use std::sync::Wait;
use std::thread::Threads;

/// A desk of one cache with a handle for each worker.
type BatchDesk = Desk<ScriptCredential, ScriptRule>;

/// A signer of such a desk.
pub type BatchSigner = RotatingSigner<ScriptCredential, ScriptRule>;

fn desk<R: Abort>(rt: &R, alloc: Global) -> BatchDesk {
    pool_desk(alloc, 8).ok().expect(rt, "memory")
}

/// A signer whose history is empty.
pub fn signer_of<R: Abort>(rt: &R, alloc: Global) -> BatchSigner {
    signer(rt, desk(rt, alloc), desk(rt, alloc))
}

/// A gate that answers so, whose credential is fresh for a second.
pub fn gate_of(alloc: Global, answers: Answers) -> Option<TestGate<ScriptCredential>> {
    let last = Timestamp::from_nanos(1_000_000_000)?;
    let credential = ScriptCredential {
        generation: 7,
        fresh: last,
        expires: last,
        required: Timestamp::from_nanos(0)?,
    };
    TestGate::new(alloc, answers, credential)
}

/// A list of one job of this number for each handle.
fn lists(alloc: Global, number: u64) -> Option<Vec<Vec<Job>>> {
    let mut work = Vec::new(alloc);
    for handle in 0..8u32 {
        work.push(jobs(alloc, &[(handle, number)])?).ok()?;
    }
    Some(work)
}

/// A worker for each list, all of whose jobs are signed. The history is then rotated.
fn batch<R: Threads + Wait + Sync + Abort>(
    rt: &R,
    signer: BatchSigner,
    gate: &TestGate<ScriptCredential>,
    work: &[Vec<Job>],
) -> Rotated<ScriptCredential, ScriptRule> {
    let batch = signer.serve_all(rt, work, gate, 1);
    let batch = batch.ok().expect(rt, "memory");
    assert!(rt; batch.passes.len() == 8);
    assert!(rt; batch.served.iter().all(|served| served.done == 1));
    let rotated = signer.rotate(batch.passes);
    rotated.ok().expect(rt, "a rotated signer")
}

/// The number of entries that a batch leaves.
fn entries_of<R: Threads + Wait + Sync + Abort>(rt: &R, alloc: Global, answers: Answers) -> usize {
    let gate = gate_of(alloc, answers).expect(rt, "a moment");
    let work = lists(alloc, 1).expect(rt, "memory");
    let rotated = batch(rt, signer_of(rt, alloc), &gate, work.as_slice());
    rotated.journal.len()
}

/// A call that waits has its begin, a poll that is answered `Pending`, a poll that signs, and what its service
/// answers. So has the one that loads: a poll that asks, and what its provider answers. The provider answers
/// when all eight workers have read the clock for their first poll.
#[test]
fn a_call_that_waits_for_a_load_leaves_four_entries(rt: HostRuntime) {
    for _ in 0..100u32 {
        let entries = entries_of(&rt, rt.alloc(), LoadsSlowly(9));
        assert!(rt; entries > 24 && entries <= 32, "{entries}");
    }
}

/// A hundred batches at one signer, each of which is replayed behind the ones before. The signer that is left
/// has served each call, with one load in all.
fn batches<R: Threads + Wait + Sync + Abort>(rt: &R, alloc: Global) -> BatchSigner {
    let gate = gate_of(alloc, Signs).expect(rt, "a moment");
    let mut replayed = desk(rt, alloc);
    let mut signer = signer_of(rt, alloc);
    for number in 1..=100u64 {
        let work = lists(alloc, number).expect(rt, "memory");
        let rotated = batch(rt, signer, &gate, work.as_slice());
        replay(rt, &mut replayed, rotated.journal.as_slice());
        signer = rotated.signer;
    }
    assert!(rt; gate.counts() == (1, 800));
    signer
}

#[test]
fn batches_go_on_behind_each_other(rt: HostRuntime) {
    let signer = batches(&rt, rt.alloc());
    let settled = signer.close(Vec::new(rt.alloc()));
    let settled = settled.ok().expect(&rt, "a closed signer");
    assert!(rt; settled.journal.is_empty() && settled.desk.cached(0).is_some());
}
