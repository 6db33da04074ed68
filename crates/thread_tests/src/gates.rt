//! A gate that answers as it is told, and counts how often it is asked.
ghost use Rattle.std.specs.Prelude.{⊤};

use sequential_signer::{Answer, SigningCredential, Verdict};
use sign_base::{CallId, Head, NoMemory, Timestamp};
use signer_shared::{Gate, GateLoad};
use std::alloc::Global;
use std::sync::atomic::{AtomicU64, Ordering};

/// How a gate answers.
#[derive(Clone, Copy, Debug)]
pub enum Answers {
    Signs,
    RejectsHeads,
    FailsLoads,
    HasNoCredential,
    NeverReady,
    /// Loads are ready from this turn on.
    ReadyFrom(u64),
    LoadsWithoutMemory,
    SignsWithoutMemory,
    /// The loads for the handles 0 and 1 wait for each other: there is no answer until both were asked for.
    LoadsMeet,
    /// So do the verdicts.
    VerdictsMeet,
    /// A load is answered some time after so much was asked of the gate.
    LoadsSlowly(u64),
}

/// A gate whose clock goes on by a nanosecond whenever anything is asked of it. One that waited in vain says
/// that it is out of memory.
#[derive(Drop)]
pub struct TestGate<K> {
    answers: Answers,
    credential: K,
    /// What its clock began with.
    start: Timestamp,
    alloc: Global,
    /// How often anything was asked of it.
    asks: AtomicU64,
    loads: AtomicU64,
    verdicts: AtomicU64,
    /// Whether handle 0 and handle 1 asked for what is waited for.
    asked: [AtomicU64; 2],
}

impl<K> TestGate<K> {
    /// A gate that answers so, whose clock begins with the moment 0.
    pub fn new(alloc: Global, answers: Answers, credential: K) -> Option<TestGate<K>>
    where
        K: Drop,
    {
        let start = Timestamp::from_nanos(0)?;
        Some(TestGate {
            answers,
            credential,
            start,
            alloc,
            asks: AtomicU64::new(0),
            loads: AtomicU64::new(0),
            verdicts: AtomicU64::new(0),
            asked: [AtomicU64::new(0), AtomicU64::new(0)],
        })
    }

    /// How often it was asked for a load, and for a verdict.
    pub fn counts(&self) -> (u64, u64) {
        let loads = self.loads.load(Ordering::SeqCst);
        (loads, self.verdicts.load(Ordering::SeqCst))
    }

    /// Waits until so much was asked of it, and then so long that a thread has time to fall asleep.
    pub fn lingers(&self, asks: u64) -> bool {
        let asked = reach(&self.asks, asks);
        for _ in 0..200_000u32 {
            self.asks.load(Ordering::SeqCst);
        }
        asked
    }

    /// Notes that this handle asked, and waits until the other does.
    fn meets(&self, handle: u32) -> bool {
        match handle {
            0 => meet(&self.asked[0], &self.asked[1]),
            1 => meet(&self.asked[1], &self.asked[0]),
            _ => true,
        }
    }
}

/// Notes that one was asked, and waits until the other is.
fn meet(mine: &AtomicU64, other: &AtomicU64) -> bool {
    mine.store(1, Ordering::SeqCst);
    reach(other, 1)
}

/// Waits until a count has come so far. It is looked at so often that a thread has time to start.
fn reach(count: &AtomicU64, least: u64) -> bool {
    for _ in 0..1_000_000_000u64 {
        if count.load(Ordering::SeqCst) >= least {
            return true;
        }
    }
    false
}

impl<K: SigningCredential> Gate<K> for TestGate<K> {
    ghost meaning = { λ gate. record {
      ready = λ call provider turn. ⊥;
      gives = λ call provider answer. ⊤;
      judges = λ call credential head verdict. ⊤;
      tells = λ moment. ⊤;
    } };

    fn load(&self, call: CallId, _provider: u32, turn: u64) -> GateLoad<K> {
        self.asks.fetch_add(1, Ordering::SeqCst);
        self.loads.fetch_add(1, Ordering::SeqCst);
        match self.answers {
            Answers::FailsLoads => GateLoad::Answer(Answer::Failed(3)),
            Answers::HasNoCredential => GateLoad::Answer(Answer::Missing),
            Answers::NeverReady => GateLoad::NotYet,
            Answers::ReadyFrom(first) if turn < first => GateLoad::NotYet,
            Answers::LoadsWithoutMemory => GateLoad::OutOfMemory,
            Answers::LoadsMeet if !self.meets(call.handle) => GateLoad::OutOfMemory,
            Answers::LoadsSlowly(asks) if !self.lingers(asks) => GateLoad::OutOfMemory,
            _ => match self.credential.try_clone(self.alloc) {
                Ok(credential) => GateLoad::Answer(Answer::Found(credential)),
                Err(_) => GateLoad::OutOfMemory,
            },
        }
    }

    fn verdict(&self, call: CallId, _credential: &K, head: &Head) -> Result<Verdict, NoMemory<()>> {
        self.asks.fetch_add(1, Ordering::SeqCst);
        self.verdicts.fetch_add(1, Ordering::SeqCst);
        match self.answers {
            Answers::RejectsHeads => Ok(Verdict::Failed(9)),
            Answers::SignsWithoutMemory => Err(NoMemory { back: () }),
            Answers::VerdictsMeet if !self.meets(call.handle) => Err(NoMemory { back: () }),
            _ => Ok(Verdict::Accepted(head.try_clone(self.alloc)?)),
        }
    }

    fn now(&self) -> Timestamp {
        let nanos = self.asks.fetch_add(1, Ordering::SeqCst);
        Timestamp::from_nanos(i128::from(nanos)).unwrap_or(self.start)
    }
}
