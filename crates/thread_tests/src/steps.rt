//! Pools whose steps come one after another: full and empty queues, and gates of several kinds.
use crate::gates::Answers::{
    FailsLoads, HasNoCredential, LoadsWithoutMemory, NeverReady, RejectsHeads, Signs,
    SignsWithoutMemory,
};
use crate::gates::{Answers, TestGate};
use crate::report::Report;
use crate::signers::{gate_of, head};
use crate::stands::{Stand, stand_of};
use fixtures::Key;
use sign_pool::Outcome::{Done, GivenUp, OutOfMemory, Refused};
use sign_pool::{Outcome, SubmitError, SubmitRefused, Ticket, Work};
use std::alloc::Global;
use std::process::Abort;
use std::sync::Wait;

/// A step by the slot at this place.
#[derive(Clone, Copy, Debug)]
enum Step {
    Submit(u32),
    Work(u32),
}

/// What a step is answered. A ticket is its submitter and its number.
#[derive(Clone, Copy, Debug, PartialEq, Eq)]
enum Told {
    Submitted(u32, u64),
    Full,
    Served(u32, u64),
    Empty,
}

/// How the gate answers, how many jobs the queue holds, and the steps with their answers. Then the outcomes
/// that the finished pool has, those of worker 0 first, and the tickets of the jobs that are left.
type Row = (
    Answers,
    usize,
    &'static [(Step, Told)],
    &'static [Outcome],
    &'static [(u32, u64)],
);

/// Two jobs of one submitter, both served by worker 0.
const TWO_JOBS: [(Step, Told); 5] = [
    (Step::Submit(1), Told::Submitted(1, 0)),
    (Step::Submit(1), Told::Submitted(1, 1)),
    (Step::Work(0), Told::Served(1, 0)),
    (Step::Work(0), Told::Served(1, 1)),
    (Step::Work(0), Told::Empty),
];

static ROWS: [Row; 13] = [
    // No jobs.
    (Signs, 1, &[], &[], &[]),
    (
        Signs,
        1,
        &[(Step::Work(0), Told::Empty), (Step::Work(1), Told::Empty)],
        &[],
        &[],
    ),
    // A full queue, which takes no number; one job served makes room for one.
    (
        Signs,
        1,
        &[
            (Step::Submit(0), Told::Submitted(0, 0)),
            (Step::Submit(0), Told::Full),
            (Step::Submit(1), Told::Full),
            (Step::Work(0), Told::Served(0, 0)),
            (Step::Submit(1), Told::Submitted(1, 0)),
            (Step::Submit(0), Told::Full),
            (Step::Work(1), Told::Served(1, 0)),
            (Step::Work(1), Told::Empty),
            (Step::Submit(0), Told::Submitted(0, 1)),
        ],
        &[Done, Done],
        &[(0, 1)],
    ),
    (
        Signs,
        3,
        &[
            (Step::Submit(0), Told::Submitted(0, 0)),
            (Step::Submit(1), Told::Submitted(1, 0)),
            (Step::Submit(1), Told::Submitted(1, 1)),
            (Step::Submit(0), Told::Full),
            (Step::Work(1), Told::Served(0, 0)),
            (Step::Submit(0), Told::Submitted(0, 1)),
            (Step::Submit(1), Told::Full),
        ],
        &[Done],
        &[(1, 0), (1, 1), (0, 1)],
    ),
    // Jobs that come after all workers left.
    (
        Signs,
        2,
        &[
            (Step::Submit(0), Told::Submitted(0, 0)),
            (Step::Work(0), Told::Served(0, 0)),
            (Step::Work(0), Told::Empty),
            (Step::Work(1), Told::Empty),
            (Step::Submit(1), Told::Submitted(1, 0)),
            (Step::Submit(0), Told::Submitted(0, 1)),
        ],
        &[Done],
        &[(1, 0), (0, 1)],
    ),
    (
        Signs,
        1,
        &[(Step::Submit(1), Told::Submitted(1, 0))],
        &[],
        &[(1, 0)],
    ),
    // Gates of several kinds. Out of memory is an answer too, and the next job is served.
    (Signs, 2, &TWO_JOBS, &[Done, Done], &[]),
    (RejectsHeads, 2, &TWO_JOBS, &[Refused, Refused], &[]),
    (FailsLoads, 2, &TWO_JOBS, &[Refused, Refused], &[]),
    (HasNoCredential, 2, &TWO_JOBS, &[Refused, Refused], &[]),
    (NeverReady, 2, &TWO_JOBS, &[GivenUp, GivenUp], &[]),
    (
        LoadsWithoutMemory,
        2,
        &TWO_JOBS,
        &[OutOfMemory, OutOfMemory],
        &[],
    ),
    (
        SignsWithoutMemory,
        2,
        &TWO_JOBS,
        &[OutOfMemory, OutOfMemory],
        &[],
    ),
];

/// What a submitter is told. `None` where an allocation failed.
fn submitted(answer: Result<Ticket, SubmitRefused>) -> Option<Told> {
    match answer {
        Ok(ticket) => Some(Told::Submitted(ticket.submitter, ticket.number)),
        Err(refused) if refused.why == SubmitError::Full => Some(Told::Full),
        Err(_) => None,
    }
}

/// What a worker is told. `None` where an allocation failed.
fn worked(answer: Work) -> Option<Told> {
    match answer {
        Work::Served(ticket) => Some(Told::Served(ticket.submitter, ticket.number)),
        Work::Empty => Some(Told::Empty),
        Work::OutOfMemory => None,
    }
}

/// What the slot of a step is told. `None` where an allocation failed.
fn told_by<R: Wait>(
    rt: &R,
    alloc: Global,
    stand: &mut Stand,
    gate: &TestGate<Key>,
    step: Step,
) -> Option<Told> {
    match step {
        Step::Submit(place) => submitted(stand.submit(rt, place, head(alloc)?)),
        Step::Work(place) => worked(stand.work(rt, place, gate)),
    }
}

/// Makes the steps of a row, and compares their answers.
fn make_steps<R: Wait + Abort>(rt: &R, alloc: Global, stand: &mut Stand, row: &Row) {
    let gate = gate_of(alloc, row.0).expect(rt, "a moment");
    for (step, answer) in row.2 {
        let told = told_by(rt, alloc, stand, &gate, *step);
        assert!(rt; told == Some(*answer), "{step:?}");
    }
}

/// What is told of a row's pool.
fn told_of<R: Wait + Abort>(rt: &R, alloc: Global, row: &Row) -> Report {
    let mut stand = stand_of(alloc, row.1).expect(rt, "memory");
    make_steps(rt, alloc, &mut stand, row);
    stand.finish(rt, alloc).expect(rt, "memory")
}

/// Whether a row's pool is finished so.
fn is_as(told: &Report, row: &Row) -> bool {
    told.finished & (told.outcomes.as_slice() == row.3) & (told.left.as_slice() == row.4)
}

#[test]
fn pools_go_as_their_steps_say(rt: HostRuntime) {
    for row in &ROWS {
        let told = told_of(&rt, rt.alloc(), row);
        assert!(rt; is_as(&told, row));
    }
}
