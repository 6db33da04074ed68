//! The workers' slots: a pass and the counts of each list, and the room that these are handed out
//! in.
ghost use Rattle.std.specs.Prelude.{◌≡◌, ◌<◌, [], map, length, slice_index_or, IfOk};
ghost use Rattle.std.specs.Global.{Vec};
ghost use Rattle.signer_shared.specs.Serving.{IsServing};
ghost use Rattle.signer_shared.specs.declared.job.Job.{Job};
ghost use Rattle.signer_shared.specs.Slots.{HasResultRoom, AreEmptySlots, ServesSlots};

use crate::gate::Gate;
use crate::job::{Job, Served};
use crate::serve::serve_at;
use crate::turn_lock::{Journaled, TurnLock};
use sequential_signer::SigningCredential;
use sign_base::NoMemory;
use signer_book::Pass;
use std::alloc::Global;
use std::sync::Wait;
use std::thread;
use std::thread::Threads;

/// What one worker writes.
#[derive(Drop)]
pub(crate) struct WorkerResult<K> {
    pass: Pass<K>,
    served: Served,
}

/// A slot for each worker, and room for what is in them.
#[derive(Drop)]
pub(crate) struct Slots<K> {
    slots: Vec<WorkerResult<K>>,
    passes: Vec<Pass<K>>,
    served: Vec<Served>,
}

impl<K: SigningCredential> Slots<K> {
    pub(crate) fn new(alloc: Global, count: usize) -> Result<Slots<K>, NoMemory<()>>
        ensures slots { IfOk result (λ s. AreEmptySlots count s.slots.items) }
        ensures room { IfOk result HasResultRoom }
    {
        let passes = Vec::with_capacity(alloc, count)?;
        let served = Vec::with_capacity(alloc, count)?;
        let mut slots = Vec::with_capacity(alloc, count)?;
        for _slot in 0..count {
            let pass = Pass::new(alloc);
            slots.push_reserved(WorkerResult {
                pass,
                served: Served::new(),
            });
        }
        Ok(Slots {
            slots,
            passes,
            served,
        })
    }

    /// The passes and the counts, in order.
    pub(crate) fn into_results(self) -> (Vec<Pass<K>>, Vec<Served>)
        requires { HasResultRoom self }
        ensures passes { result.0.items ≡ map (λ s. s.pass) self.slots.items }
        ensures served { result.1.items ≡ map (λ s. s.served) self.slots.items }
    {
        let Slots {
            slots,
            mut passes,
            mut served,
        } = self;
        for slot in slots {
            passes.push_reserved(slot.pass);
            served.push_reserved(slot.served);
        }
        (passes, served)
    }
}

impl<K: SigningCredential + Send + Sync> Slots<K> {
    /// A worker for each list, which writes into its slot. All are joined.
    pub(crate) fn serve<J: Journaled<K> + Send, G: Gate<K> + Sync, R: Threads + Wait + Sync>(
        &mut self,
        rt: &R,
        signer: &TurnLock<J>,
        work: &[Vec<Job>],
        gate: &G,
        turns: u64,
    )
        requires count { length self.old.slots.items ≡ length work.now }
        requires room { HasResultRoom self.old }
        ensures each { ServesSlots (G.meaning gate.now) turns work.now
            self.old.slots.items self.new.slots.items }
        ensures count { length self.new.slots.items ≡ length work.now }
        ensures room { HasResultRoom self.new }
    {
        serve_slots(rt, signer, work, gate, turns, self.slots.as_mut_slice());
    }
}

fn serve_slots<
    K: SigningCredential + Send + Sync,
    J: Journaled<K> + Send,
    G: Gate<K> + Sync,
    R: Threads + Wait + Sync,
>(
    rt: &R,
    signer: &TurnLock<J>,
    work: &[Vec<Job>],
    gate: &G,
    turns: u64,
    slots: &mut [WorkerResult<K>],
)
    requires { length slots.old ≡ length work.now }
    ensures { ServesSlots (G.meaning gate.now) turns work.now slots.old slots.new }
{
    if slots.is_empty() {
        return;
    }
    let threads = slots.len();
    let worker = move |i: usize, slot: &mut WorkerResult<K>|
        requires { i < length work.now }
        ensures { (e : Vec Job) → slot.old.pass ≡ []
            → IsServing (G.meaning gate.entry.now) turns (slice_index_or work.entry.now i e).items
            slot.new.pass slot.new.served }
    { serve_slot(rt, signer, work, i, gate, turns, slot) };
    thread::for_each_mut(rt, slots, threads, &worker);
}

fn serve_slot<K: SigningCredential, J: Journaled<K>, G: Gate<K>, R: Wait>(
    rt: &R,
    signer: &TurnLock<J>,
    work: &[Vec<Job>],
    i: usize,
    gate: &G,
    turns: u64,
    slot: &mut WorkerResult<K>,
)
    requires { i < length work.now }
    ensures { (e : Vec Job) → slot.old.pass ≡ []
        → IsServing (G.meaning gate.now) turns (slice_index_or work.now i e).items
        slot.new.pass slot.new.served }
{
    let jobs = work[i].as_slice();
    slot.served = serve_at(rt, signer, &mut slot.pass, jobs, gate, turns);
}
