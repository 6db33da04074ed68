//! A proxy: one signer, and threads that share it.
ghost use Rattle.std.specs.Prelude.{◌≡◌, []};
ghost use Rattle.sequential_signer.specs.Policy.{policy_for};
ghost use Rattle.desk_parts.specs.Tables.{setup_of};
ghost use Rattle.sign_desk.specs.DeskState.{Represents};

use concurrent_signer::{ConcurrentSigner, History, Opened, Refusal, SetUp, Settings};
use credentials::ProvideCredential;
use object_gate::ObjectGate;
use sequential_signer::{DeadlineRule, Entry, SigningCredential};
use sign_base::Head;
use sign_desk::Desk;
use signer_shared::Gate;
use std::sync::Wait;
use std::sync::atomic::{AtomicU64, Ordering};
use std::thread;
use std::thread::Threads;
use std::time::{Clock, Duration};

pub const THREADS: usize = 4;

/// A gate whose waits can be ended.
pub trait Stops {
    fn end_waits(&self);
}

impl<'a, P: ProvideCredential, S, X, T> Stops for ObjectGate<'a, P, S, X, T> {
    fn end_waits(&self) {
        self.stop();
    }
}

/// What one thread is to sign, and how its calls ended.
#[derive(Drop)]
pub struct Batch {
    pub heads: Vec<Head>,
    pub signed: u64,
    pub stopped: u64,
    /// Whether the thread stops the proxy, once a provider was asked three times.
    pub stops: bool,
}

/// The batches of the threads, and the second at which they sign.
#[derive(Drop)]
pub struct Round {
    pub second: u64,
    pub batches: Vec<Batch>,
}

/// Signs the requests of one thread.
fn serve<K, D, G, N, R>(
    rt: &R,
    proxy: &ConcurrentSigner<K, D, G, N>,
    me: &mut History<K, D, N>,
    asked: &AtomicU64,
    batch: &mut Batch,
)
where
    K: SigningCredential,
    D: DeadlineRule<Credential = K>,
    G: Gate<K> + Stops,
    N: SetUp<D>,
    R: Wait + Clock,
{
    for head in batch.heads.as_mut_slice() {
        match proxy.sign(rt, me, 0, head, None) {
            Ok(()) => batch.signed = batch.signed.saturating_add(1),
            Err(Refusal::Stopped) => batch.stopped = batch.stopped.saturating_add(1),
            Err(_) => return,
        }
    }
    if batch.stops {
        await_asked(rt, asked);
        stop(rt, proxy);
    }
}

/// Waits until a provider was asked three times.
fn await_asked<R: Wait + Clock>(rt: &R, asked: &AtomicU64) {
    for _ in rt.forever() {
        if asked.load(Ordering::SeqCst) >= 3 {
            return;
        }
        thread::sleep(rt, Duration::from_millis(1));
    }
}

/// Ends all waits, and refuses what comes later.
fn stop<K, D, G, N, R>(rt: &R, proxy: &ConcurrentSigner<K, D, G, N>)
where
    K: SigningCredential,
    D: DeadlineRule<Credential = K>,
    G: Gate<K> + Stops,
    N: SetUp<D>,
    R: Wait,
{
    proxy.stop(rt);
    proxy.settings().gate.end_waits();
}

/// Serves all rounds, each batch by a thread of its own. Where it returns, no call is live. `second` is what
/// the clock of the gate shows, and `asked` how often its provider was asked.
pub fn serve_all<
    K: SigningCredential + Send + Sync,
    D: DeadlineRule<Credential = K> + Send + Sync,
    G: Gate<K> + Stops + Drop + Send + Sync,
    N: SetUp<D> + Send + Sync,
    R: Threads + Wait + Clock + Sync,
>(
    rt: &R,
    opened: Opened<Entry<K>>,
    desk: Desk<K, D>,
    settings: Settings<G>,
    second: &AtomicU64,
    asked: &AtomicU64,
    rounds: &mut [Round],
)
    requires book { opened.seen.book ≡ N.book }
    requires fresh { Represents (policy_for K.SigningCredential D.DeadlineRule) desk [] }
    requires setup { setup_of desk ≡ N.setup }
{
    let (proxy, me) = ConcurrentSigner::<K, D, G, N>::new(opened, desk, settings);
    for round in rounds {
        second.store(round.second, Ordering::SeqCst);
        thread::for_each_mut(
            rt,
            round.batches.as_mut_slice(),
            THREADS,
            &|_, batch: &mut Batch| serve(rt, &proxy, &mut me.again(), asked, batch),
        );
    }
}
