//! Signers with two caches, each with one handle, and jobs for them. `None` is an allocation that failed.
ghost use Rattle.std.specs.Prelude.{[], IfSome};
ghost use Rattle.sequential_signer.specs.Policy.{policy_for};
ghost use Rattle.sign_desk.specs.DeskState.{Represents};

use crate::gates::{Answers, TestGate};
use fixtures::{Key, UntilNow, plain_head};
use sequential_signer::{DeadlineRule, Loader, SigningCredential};
use sign_base::{CallId, Head};
use sign_desk::Desk;
use sign_pool::Pool;
use signer_shared::{Book, Job, SharedSigner};
use std::alloc::Global;

/// A signer that threads share.
pub type KeySigner = SharedSigner<Key, UntilNow>;

/// A signing pool.
pub type KeyPool = Pool<Key, UntilNow>;

/// A desk with two caches, each with one handle.
pub fn desk_of<K: SigningCredential, D: DeadlineRule<Credential = K>>(
    alloc: Global,
    rule: D,
) -> Option<Desk<K, D>>
    ensures { IfSome result (λ desk. Represents (policy_for K.SigningCredential D.DeadlineRule) desk []) }
{
    let mut desk = Desk::new(alloc);
    let rule = desk.add_rule(rule).ok()?;
    desk.add_cache_and_handle(Loader::Single, rule).ok()?;
    desk.add_cache_and_handle(Loader::Single, rule).ok()?;
    Some(desk)
}

/// A shared signer of such a desk.
pub fn signer_of(alloc: Global) -> Option<KeySigner> {
    let rule = UntilNow { place: 0 };
    let desk = desk_of(alloc, rule)?;
    let plan = desk_of(alloc, rule)?;
    if !plan.same_setup(&desk) {
        return None;
    }
    Some(SharedSigner::new(Book::new(desk), plan))
}

/// A pool of such a desk, whose queue holds so many jobs, from 1 to 65,536.
pub fn pool_of(alloc: Global, capacity: usize) -> Option<KeyPool> {
    let rule = UntilNow { place: 0 };
    let desk = desk_of(alloc, rule)?;
    let plan = desk_of(alloc, rule)?;
    if !plan.same_setup(&desk) || capacity == 0 || capacity > 65_536 {
        return None;
    }
    Pool::new(Book::new(desk), plan, capacity).ok()
}

/// A gate for such a signer, whose loads find a key.
pub fn gate_of(alloc: Global, answers: Answers) -> Option<TestGate<Key>> {
    TestGate::new(alloc, answers, Key { number: 7 })
}

/// The head `GET /`.
pub fn head(alloc: Global) -> Option<Head> {
    plain_head(alloc, "GET", "/").ok()
}

/// A job for each handle and number.
pub fn jobs(alloc: Global, calls: &[(u32, u64)]) -> Option<Vec<Job>> {
    let mut jobs = Vec::new(alloc);
    for (handle, number) in calls {
        jobs.push(job(alloc, *handle, *number)?).ok()?;
    }
    Some(jobs)
}

fn job(alloc: Global, handle: u32, number: u64) -> Option<Job> {
    Some(Job {
        call: CallId { handle, number },
        head: head(alloc)?,
        expires_in: None,
    })
}
