//! Eight threads that make calls at one concurrent signer with two caches: how their calls end, and how often
//! the gate is asked.
ghost use Rattle.std.specs.Prelude.{◌≡◌, ◌<◌, [], true, Some};
ghost use Rattle.sequential_signer.specs.Policy.{policy_of};
ghost use Rattle.desk_parts.specs.Tables.{setup_of};
ghost use Rattle.sign_desk.specs.DeskState.{Represents};

use crate::gates::Answers::{
    FailsLoads, HasNoCredential, LoadsMeet, LoadsWithoutMemory, NeverReady, ReadyFrom,
    RejectsHeads, Signs, SignsWithoutMemory, VerdictsMeet,
};
use crate::gates::{Answers, TestGate};
use crate::signers::{desk_of, gate_of, head};
use concurrent_signer::{ConcurrentSigner, History, Opened, Patience, Refusal, SetUp, Settings};
use fixtures::{Key, UntilNow};
use sequential_signer::Entry;
use sign_desk::Desk;
use std::alloc::Global;
use std::marker::Brand;
use std::process::Abort;
use std::sync::Wait;
use std::thread;
use std::thread::Threads;
use std::time::{Clock, Duration};

const THREADS: u32 = 8;

/// How often calls ended so: signed, refused, busy, given up, not now, out of memory.
type Ends = [u64; 6];

/// How the gate answers, how many calls may be live, how often a provider is asked, how many calls each
/// thread makes; how the calls end; how often the gate is asked for a load, and for a verdict.
type Row = (Answers, usize, u64, u64, Ends, (u64, u64));

static ROWS: [Row; 11] = [
    (Signs, 8, 1, 500, [4000, 0, 0, 0, 0, 0], (2, 4000)),
    // Each cache is loaded once, by the fourth question.
    (ReadyFrom(3), 8, 5, 500, [4000, 0, 0, 0, 0, 0], (8, 4000)),
    (RejectsHeads, 8, 1, 200, [0, 1600, 0, 0, 0, 0], (2, 1600)),
    (FailsLoads, 8, 1, 200, [0, 1600, 0, 0, 0, 0], (1600, 0)),
    (HasNoCredential, 8, 1, 200, [0, 1600, 0, 0, 0, 0], (1600, 0)),
    (NeverReady, 8, 2, 20, [0, 0, 0, 160, 0, 0], (320, 0)),
    (
        LoadsWithoutMemory,
        8,
        1,
        100,
        [0, 0, 0, 0, 0, 800],
        (800, 0),
    ),
    (
        SignsWithoutMemory,
        8,
        1,
        100,
        [0, 0, 0, 0, 0, 800],
        (2, 800),
    ),
    // A load of one cache answers once the other's has been asked for, so the lock is let go for it.
    (LoadsMeet, 8, 1, 100, [800, 0, 0, 0, 0, 0], (2, 800)),
    (VerdictsMeet, 8, 1, 100, [800, 0, 0, 0, 0, 0], (2, 800)),
    (Signs, 0, 1, 100, [0, 0, 800, 0, 0, 0], (0, 0)),
];

/// What a thread has seen of the history, its handle, and how its calls ended.
#[derive(Drop)]
struct Caller<N: SetUp<UntilNow>> {
    me: History<Key, UntilNow, N>,
    handle: u32,
    ends: Ends,
}

type TestSigner<N> = ConcurrentSigner<Key, UntilNow, TestGate<Key>, N>;

/// The place of an end in `Ends`.
fn place_of(end: &Result<(), Refusal>) -> usize
    ensures { result < 6 }
{
    match end {
        Ok(()) => 0,
        Err(Refusal::Refused(_)) => 1,
        Err(Refusal::Busy) => 2,
        // (none of these signers is stopped)
        Err(Refusal::GivenUp) | Err(Refusal::Stopped) => 3,
        Err(Refusal::NotNow) => 4,
        Err(Refusal::OutOfMemory) => 5,
    }
}

/// Makes so many calls. It stops where there is no memory for a head.
fn make_calls<N: SetUp<UntilNow>, R: Wait + Clock>(
    rt: &R,
    alloc: Global,
    signer: &TestSigner<N>,
    caller: &mut Caller<N>,
    calls: u64,
) {
    for _ in 0..calls {
        let Some(mut head) = head(alloc) else {
            return;
        };
        let end = signer.sign(rt, &mut caller.me, caller.handle, &mut head, None);
        let place = place_of(&end);
        caller.ends[place] = caller.ends[place].saturating_add(1);
    }
}

/// The callers, half of them with each handle.
fn callers<N: SetUp<UntilNow>>(
    alloc: Global,
    me: &History<Key, UntilNow, N>,
) -> Option<Vec<Caller<N>>> {
    let mut callers = Vec::new(alloc);
    for number in 0..THREADS {
        let caller = Caller {
            me: me.again(),
            handle: number % 2,
            ends: [0; 6],
        };
        callers.push(caller).ok()?;
    }
    Some(callers)
}

/// How the calls of all callers ended.
fn sum<N: SetUp<UntilNow>>(callers: &[Caller<N>]) -> Ends {
    let mut all = [0u64; 6];
    for caller in callers {
        for place in 0..6 {
            all[place] = all[place].saturating_add(caller.ends[place]);
        }
    }
    all
}

/// How the calls of eight threads ended, and how often the gate was asked.
fn run<N: SetUp<UntilNow> + Send + Sync, R: Threads + Wait + Clock + Sync>(
    rt: &R,
    alloc: Global,
    opened: Opened<Entry<Key>>,
    desk: Desk<Key, UntilNow>,
    settings: Settings<TestGate<Key>>,
    calls: u64,
) -> Option<(Ends, (u64, u64))>
    requires book { opened.seen.book ≡ N.book }
    requires fresh { Represents (policy_of (λ key now. true) (λ key moment now. true)
        (λ rule key duration now. Some now)) desk [] }
    requires setup { setup_of desk ≡ N.setup }
{
    let (signer, me) = TestSigner::<N>::new(opened, desk, settings);
    let mut callers = callers(alloc, &me)?;
    thread::for_each_mut(
        rt,
        callers.as_mut_slice(),
        THREADS as usize,
        &|_, caller: &mut Caller<N>| make_calls(rt, alloc, &signer, caller, calls),
    );
    Some((sum(callers.as_slice()), signer.settings().gate.counts()))
}

/// The calls of a row.
fn ends_of<R: Threads + Wait + Clock + Sync>(
    rt: &R,
    alloc: Global,
    row: &Row,
) -> Option<(Ends, (u64, u64))> {
    let desk = desk_of(alloc, UntilNow { place: 0 })?;
    let settings = Settings {
        gate: gate_of(alloc, row.0)?,
        limit: row.1,
        patience: Patience {
            turn: Duration::from_secs(60),
            asks: row.2,
            pause: Duration::from_millis(1),
        },
    };
    run::<Brand, _>(rt, alloc, Opened::new(), desk, settings, row.3)
}

#[test]
fn calls_end_as_their_gate_answers(rt: HostRuntime) {
    for row in &ROWS {
        let (ends, asked) = ends_of(&rt, rt.alloc(), row).expect(&rt, "memory");
        assert_eq!(rt; ends, row.4);
        assert_eq!(rt; asked, row.5);
    }
}
