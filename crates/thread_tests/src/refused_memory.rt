//! Steps of a shared signer, jobs of a pool, and a worker's jobs, where memory is refused. Steps and jobs of
//! a pool are tried once more. `None` is an allocation that failed outside of these.
ghost use Rattle.std.specs.Prelude.{◌≡◌, ◌≤◌, [], vec_capacity};

use crate::gates::{Answers, TestGate};
use crate::report::Report;
use crate::signers::{KeySigner, gate_of, head, jobs, signer_of};
use crate::stands::{Stand, stand_of};
use fixtures::Key;
use sequential_signer::Event;
use sign_base::{CallId, Head};
use sign_pool::{SubmitError, Work};
use signer_shared::{Pass, Served, serve_jobs};
use std::alloc::Global;
use std::sync::Wait;

/// A begin of a call of the first handle.
fn begin(alloc: Global, number: u64) -> Option<Event<Key>> {
    Some(Event::Begin {
        call: CallId { handle: 0, number },
        head: head(alloc)?,
        expires_in: None,
    })
}

/// Whether the step is in the pass, if need be at the second try: a refused one changes nothing.
fn steps<R: Wait>(rt: &R, signer: &KeySigner, pass: &mut Pass<Key>, event: &Event<Key>) -> bool {
    let before = pass.receipts().len();
    if signer.step(rt, pass, event).is_out_of_memory() {
        if pass.receipts().len() != before {
            return false;
        }
        signer.step(rt, pass, event);
    }
    pass.receipts().len() == before + 1
}

/// The length of the settled journal of two begins, each through its own pass, or 0. There is room for the
/// passes.
fn settled<R: Wait>(
    rt: &R,
    alloc: Global,
    signer: KeySigner,
    mut passes: Vec<Pass<Key>>,
    begins: &[Event<Key>; 2],
) -> usize
    requires none { passes.items ≡ [] }
    requires room { 2 ≤ vec_capacity passes }
{
    let mut first = Pass::new(alloc);
    let mut second = Pass::new(alloc);
    let both = steps(rt, &signer, &mut first, &begins[0])
        & steps(rt, &signer, &mut second, &begins[1]);
    passes.push_reserved(first);
    passes.push_reserved(second);
    match signer.close(passes) {
        Ok(settled) if both => settled.journal.len(),
        _ => 0,
    }
}

fn two_begins<R: Wait>(rt: &R, alloc: Global) -> Option<usize> {
    let begins = [begin(alloc, 1)?, begin(alloc, 2)?];
    let passes = Vec::with_capacity(alloc, 2).ok()?;
    let signer = signer_of(alloc)?;
    Some(settled(rt, alloc, signer, passes, &begins))
}

#[test]
fn a_refused_allocation_loses_no_step(rt: HostRuntime) {
    let length = match two_begins(&rt, rt.alloc()) {
        None => two_begins(&rt, rt.alloc()),
        length => length,
    };
    assert!(rt; length == Some(2));
}

/// Submits, if need be at the second try. Whether the job is in the queue.
fn submits<R: Wait>(rt: &R, stand: &mut Stand, place: u32, head: Head) -> bool {
    match stand.submit(rt, place, head) {
        Ok(_) => true,
        Err(refused) => {
            refused.why == SubmitError::OutOfMemory && stand.submit(rt, place, refused.head).is_ok()
        }
    }
}

/// Works, if need be at the second try. Whether a job was served.
fn works<R: Wait>(rt: &R, stand: &mut Stand, place: u32, gate: &TestGate<Key>) -> bool {
    match stand.work(rt, place, gate) {
        Work::OutOfMemory => matches!(stand.work(rt, place, gate), Work::Served(_)),
        told => matches!(told, Work::Served(_)),
    }
}

/// Whether two jobs are submitted and served by two slots.
fn serves<R: Wait>(rt: &R, alloc: Global, stand: &mut Stand) -> Option<bool> {
    let gate = gate_of(alloc, Answers::Signs)?;
    let first = head(alloc)?;
    let second = head(alloc)?;
    let submitted = submits(rt, stand, 0, first) & submits(rt, stand, 1, second);
    Some(submitted & works(rt, stand, 0, &gate) & works(rt, stand, 1, &gate))
}

/// What is told of two jobs, submitted and served by two slots.
fn two_jobs<R: Wait>(rt: &R, alloc: Global) -> Option<(bool, Report)> {
    let mut stand = stand_of(alloc, 2)?;
    let served = serves(rt, alloc, &mut stand)?;
    Some((served, stand.finish(rt, alloc)?))
}

/// Whether both jobs were served and answered, and none is left.
fn balance(told: Option<(bool, Report)>) -> bool {
    match told {
        Some((served, report)) => {
            served && report.submitted == 2 && report.outcomes.len() == 2 && report.left.is_empty()
        }
        None => false,
    }
}

#[test]
fn a_refused_allocation_loses_no_job(rt: HostRuntime) {
    let told = match two_jobs(&rt, rt.alloc()) {
        None => two_jobs(&rt, rt.alloc()),
        told => told,
    };
    assert!(rt; balance(told));
}

/// What a worker counts of two jobs, and how many calls it leaves that are not over.
fn served_and_live<R: Wait>(rt: &R, alloc: Global) -> Option<(Served, usize)> {
    let gate = gate_of(alloc, Answers::Signs)?;
    let jobs = jobs(alloc, &[(0, 1), (0, 2)])?;
    let signer = signer_of(alloc)?;
    let mut passes = Vec::with_capacity(alloc, 1).ok()?;
    let mut pass = Pass::new(alloc);
    let served = serve_jobs(rt, &signer, &mut pass, jobs.as_slice(), &gate, 1);
    passes.push_reserved(pass);
    match signer.close(passes) {
        Ok(settled) => Some((served, settled.desk.live())),
        Err(_) => Some((served, usize::MAX)),
    }
}

/// At a begin, a poll, a load, the hand-over of its answer, a signature: the worker stops, and the call is
/// over.
#[test]
fn a_refused_allocation_leaves_no_call(rt: HostRuntime) {
    let told = match served_and_live(&rt, rt.alloc()) {
        None => served_and_live(&rt, rt.alloc()),
        told => told,
    };
    let (served, live) = told.expect(&rt, "memory");
    assert!(rt;
        live == 0 && (served.out_of_memory || served.done == 2),
        "{served:?} {live}"
    );
}
