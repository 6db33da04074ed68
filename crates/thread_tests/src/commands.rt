//! The commands `pool` and `queue`: what they write, by their words and their gates, and that their workers
//! run beside each other.
use crate::gates::Answers::{
    FailsLoads, HasNoCredential, LoadsWithoutMemory, NeverReady, RejectsHeads, SignsWithoutMemory,
    VerdictsMeet,
};
use crate::gates::{Answers, TestGate};
use pool_jobs::PoolGate;
use sign_base::Timestamp;
use sign_io::MemorySink;
use signctl_driver::Status;
use signctl_driver::Status::{Done, OutOfMemory, Usage, WriteFault};
use signctl_format::ScriptCredential;
use signctl_threads::run_pool;
use signer_shared::Gate;
use std::alloc::{AllocError, Global};
use std::process::Abort;
use std::sync::Wait;
use std::thread::Threads;

/// The words, the bytes that the sink has room for; what is written, and how it ends.
type Row = (&'static str, usize, &'static str, Status);

static ROWS: [Row; 34] = [
    ("pool 4 8", 99, "calls 8 signed 8 loads 1 settled\n", Done),
    ("pool 1 0", 99, "calls 0 signed 0 loads 0 settled\n", Done),
    ("pool 3 1", 99, "calls 1 signed 1 loads 1 settled\n", Done),
    (
        "pool 64 65",
        99,
        "calls 65 signed 65 loads 1 settled\n",
        Done,
    ),
    ("pool 4 8", 0, "", WriteFault),
    ("pool 4 8", 9, "calls 8 s", WriteFault),
    ("pool 0 1", 99, "", Usage),
    ("pool 65 1", 99, "", Usage),
    ("pool 1 10001", 99, "", Usage),
    ("pool 1 01", 99, "", Usage),
    ("pool 1", 99, "", Usage),
    ("pool 1 1 1", 99, "", Usage),
    ("pools 1 1", 99, "", Usage),
    ("load 1 1", 99, "", Usage),
    (
        "queue 4 100 8",
        99,
        "calls 100 answered 100 left 0 loads 1 settled\n",
        Done,
    ),
    (
        "queue 1 3 1",
        99,
        "calls 3 answered 3 left 0 loads 1 settled\n",
        Done,
    ),
    (
        "queue 2 0 1",
        99,
        "calls 0 answered 0 left 0 loads 0 settled\n",
        Done,
    ),
    (
        "queue 3 1 1",
        99,
        "calls 1 answered 1 left 0 loads 1 settled\n",
        Done,
    ),
    (
        "queue 3 50 1",
        99,
        "calls 50 answered 50 left 0 loads 1 settled\n",
        Done,
    ),
    (
        "queue 64 65 1024",
        99,
        "calls 65 answered 65 left 0 loads 1 settled\n",
        Done,
    ),
    ("queue 4 8 2", 0, "", WriteFault),
    ("queue 4 8 2", 9, "calls 8 a", WriteFault),
    ("queue 2 1 0", 99, "", Usage),
    ("queue 0 1 1", 99, "", Usage),
    ("queue 65 1 1", 99, "", Usage),
    ("queue 1 10001 1", 99, "", Usage),
    ("queue 1 1 1025", 99, "", Usage),
    ("queue 1 1 01", 99, "", Usage),
    ("queue 1 01 1", 99, "", Usage),
    ("queue 1 1", 99, "", Usage),
    ("queue 1 1 1 1", 99, "", Usage),
    ("queue", 99, "", Usage),
    ("queues 1 1 1", 99, "", Usage),
    ("", 99, "", Usage),
];

/// The words of a command line, parted by spaces.
fn words(alloc: Global, line: &str) -> Result<Vec<String>, AllocError> {
    let mut words = Vec::new(alloc);
    for word in line.split(' ') {
        words.push(String::from_str(alloc, word)?)?;
    }
    Ok(words)
}

/// Whether a run writes this, and ends so.
fn ends_as<G: Gate<ScriptCredential> + Sync, R: Threads + Wait + Sync + Abort>(
    rt: &R,
    alloc: Global,
    gate: &G,
    row: &Row,
) -> bool {
    let words = words(alloc, row.0).ok().expect(rt, "memory");
    let mut sink = MemorySink::new(alloc, row.1).ok().expect(rt, "memory");
    let status = run_pool(rt, alloc, words.as_slice(), gate, &mut sink).status();
    status == row.3 && sink.written() == row.2.as_bytes()
}

#[test]
fn commands_end_as_their_words_say(rt: HostRuntime) {
    let gate = PoolGate { alloc: rt.alloc() };
    for row in &ROWS {
        assert!(rt; ends_as(&rt, rt.alloc(), &gate, row), "{}", row.0);
    }
}

static GATE_ROWS: [(Answers, Row); 8] = [
    (
        VerdictsMeet,
        ("pool 2 2", 99, "calls 2 signed 2 loads 1 settled\n", Done),
    ),
    (
        VerdictsMeet,
        (
            "queue 2 2 2",
            99,
            "calls 2 answered 2 left 0 loads 1 settled\n",
            Done,
        ),
    ),
    (
        RejectsHeads,
        (
            "queue 2 5 2",
            99,
            "calls 5 answered 5 left 0 loads 1 settled\n",
            Done,
        ),
    ),
    (
        FailsLoads,
        (
            "queue 2 5 2",
            99,
            "calls 5 answered 5 left 0 loads 5 settled\n",
            Done,
        ),
    ),
    (
        HasNoCredential,
        (
            "queue 2 5 2",
            99,
            "calls 5 answered 5 left 0 loads 5 settled\n",
            Done,
        ),
    ),
    (
        NeverReady,
        (
            "queue 2 5 2",
            99,
            "calls 5 answered 5 left 0 loads 5 settled\n",
            Done,
        ),
    ),
    (LoadsWithoutMemory, ("queue 2 5 2", 99, "", OutOfMemory)),
    (SignsWithoutMemory, ("queue 2 5 2", 99, "", OutOfMemory)),
];

/// As many calls as a pool may have, by as many workers.
const LARGEST_POOL: Row = (
    "pool 64 10000",
    99,
    "calls 10000 signed 10000 loads 1 settled\n",
    Done,
);

#[test]
fn the_largest_pool_signs_all_its_calls(rt: HostRuntime) {
    let gate = PoolGate { alloc: rt.alloc() };
    assert!(rt; ends_as(&rt, rt.alloc(), &gate, &LARGEST_POOL));
}

/// A gate with a credential that is fresh and lasts.
fn gate_of(alloc: Global, answers: Answers) -> Option<TestGate<ScriptCredential>> {
    let credential = ScriptCredential {
        generation: 7,
        fresh: Timestamp::from_nanos(900)?,
        expires: Timestamp::from_nanos(900)?,
        required: Timestamp::from_nanos(0)?,
    };
    TestGate::new(alloc, answers, credential)
}

#[test]
fn commands_end_as_their_gates_say(rt: HostRuntime) {
    for (answers, row) in &GATE_ROWS {
        let gate = gate_of(rt.alloc(), *answers).expect(&rt, "moments");
        assert!(rt;
            ends_as(&rt, rt.alloc(), &gate, row),
            "{answers:?} {}",
            row.0
        );
    }
}
