//! A worker whose call sleeps behind another one, and a thread that cancels one of the two: the worker wakes.
use crate::batches::{BatchSigner, gate_of, signer_of};
use crate::gates::Answers::Signs;
use crate::gates::TestGate;
use crate::signers::{head, jobs};
use sequential_signer::{Event, Reply};
use sign_base::{CallId, Timestamp};
use signctl_format::ScriptCredential;
use signer_shared::{Job, Pass, Served};
use std::alloc::Global;
use std::process::Abort;
use std::sync::Wait;
use std::thread::{Threads, join_mut};

/// The call that holds the cache, and the worker's, which stands behind it.
const HOLDER: CallId = CallId {
    handle: 0,
    number: 1,
};

const SLEEPER: CallId = CallId {
    handle: 1,
    number: 1,
};

/// Begins the call that holds the cache: its provider is asked, and does not answer.
fn hold<R: Wait + Abort>(
    rt: &R,
    alloc: Global,
    signer: &BatchSigner,
    pass: &mut Pass<ScriptCredential>,
) {
    let begin = Event::Begin {
        call: HOLDER,
        head: head(alloc).expect(rt, "memory"),
        expires_in: None,
    };
    let poll = Event::Poll {
        call: HOLDER,
        now: Timestamp::from_nanos(0).expect(rt, "a moment"),
    };
    assert!(rt; matches!(signer.step(rt, pass, &begin), Reply::Begun));
    assert!(rt; matches!(signer.step(rt, pass, &poll), Reply::Ask { .. }));
}

/// Cancels a call, some time after the worker has read the clock for its first poll.
fn cancel<R: Wait>(
    rt: &R,
    signer: &BatchSigner,
    gate: &TestGate<ScriptCredential>,
    pass: &mut Pass<ScriptCredential>,
    call: CallId,
) -> bool {
    let is_time = gate.lingers(1);
    let reply = signer.step(rt, pass, &Event::Cancel { call });
    is_time & matches!(reply, Reply::Cancelled { .. })
}

/// What the worker counts, and whether the call was cancelled meanwhile.
fn beside<R: Threads + Wait + Sync>(
    rt: &R,
    signer: &BatchSigner,
    gate: &TestGate<ScriptCredential>,
    work: &[Job],
    own: &mut Pass<ScriptCredential>,
    held: &mut Pass<ScriptCredential>,
    call: CallId,
) -> (Served, bool) {
    join_mut(
        rt,
        &mut || signer.serve_jobs(rt, own, work, gate, 1),
        &mut || cancel(rt, signer, gate, held, call),
    )
}

/// How many calls of the worker were signed, and how many events did not fit, where this call is cancelled;
/// and how many receipts the worker has.
fn served<R: Threads + Wait + Sync + Abort>(
    rt: &R,
    alloc: Global,
    call: CallId,
) -> ((u64, u64), usize) {
    let gate = gate_of(alloc, Signs).expect(rt, "a moment");
    let work = jobs(alloc, &[(1, 1)]).expect(rt, "memory");
    let signer = signer_of(rt, alloc);
    let mut held = signer.pass().ok().expect(rt, "a pass");
    let mut own = signer.pass().ok().expect(rt, "a pass");
    hold(rt, alloc, &signer, &mut held);
    let (served, cancelled) = beside(
        rt,
        &signer,
        &gate,
        work.as_slice(),
        &mut own,
        &mut held,
        call,
    );
    assert!(rt; cancelled);
    ((served.done, served.not_now), own.receipts().len())
}

/// The worker's call has its begin, a poll that is `Pending`, and one after its sleep. It loads then, and has
/// the answers of its provider and of its service; or it is over, and that poll does not fit. Where the cancel
/// came first there is no sleep.
#[test]
fn a_cancel_wakes_the_worker(rt: HostRuntime) {
    for (call, counts, most) in [(HOLDER, (1, 0), 5), (SLEEPER, (0, 1), 3)] {
        for _ in 0..100u32 {
            let (counted, receipts) = served(&rt, rt.alloc(), call);
            assert!(rt; counted == counts && receipts <= most, "{receipts}");
        }
    }
}
