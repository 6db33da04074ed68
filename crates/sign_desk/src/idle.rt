//! A desk without live calls: a copy of what it keeps beside its setup, by which another desk of that setup
//! is compared with it, or made like it.
ghost use Rattle.std.specs.Prelude.{◌≡◌, ◌≢◌, MatchBool, IfOk, OnOk, OnErr, length};

use crate::desk::Desk;
use crate::state::State;
use sequential_signer::{DeadlineRule, SigningCredential};
use sign_base::{EqualByValue, NoMemory, is_same};
use std::alloc::Global;
use std::marker::Model;

/// What a desk without live calls keeps beside its setup: the credential of each cache, the number of the
/// last call begun under each handle, and whether a call was begun.
#[derive(Drop)]
pub struct IdleDesk<K> {
    caches: Vec<Option<K>>,
    last_numbers: Vec<Option<u64>>,
    has_begun_calls: bool,
}

impl<K> Model for IdleDesk<K> {
    ghost use Rattle.sign_desk.specs.Idle.{IdleState};

    ghost Value = { IdleState K };

    ghost view = { λ idle. record {
      caches = idle.caches.items;
      greatest = idle.last_numbers.items;
      started = idle.has_begun_calls;
    } };
}

impl<K: SigningCredential, D: DeadlineRule<Credential = K>> Desk<K, D> {
    ghost use Rattle.desk_parts.specs.Tables.{setup_of};
    ghost use Rattle.sequential_signer.specs.Policy.{policy_for};
    ghost use Rattle.sign_desk.specs.Idle.{desk_at, RepresentsSome};

    /// A copy of what the desk keeps beside its setup, where no call is live: with its setup that is all of
    /// it. It takes room for each cache and each handle.
    pub fn copy_idle(&self) -> Result<IdleDesk<K>, NoMemory<()>>
        requires { length self.now.calls ≡ 0 }
        ensures copied { IfOk result (λ idle. self.now ≡ desk_at (setup_of self.now) idle) }
        ensures represents { RepresentsSome (policy_for K.SigningCredential D.DeadlineRule) self.now }
    {
        let tables = &self.state.tables;
        Ok(IdleDesk {
            caches: copy_all(tables.caches.as_slice(), tables.alloc)?,
            last_numbers: Vec::from_slice(tables.alloc, tables.last_numbers.as_slice())?,
            has_begun_calls: tables.has_begun_calls,
        })
    }

    /// Makes this desk like another of the same setup, by copies of the credentials in its caches and of its
    /// numbers. No call of either is live. An error changes nothing.
    pub fn catch_up(&mut self, other: &Desk<K, D>) -> Result<(), NoMemory<()>>
        requires setup { setup_of self.old ≡ setup_of other.now }
        requires idle { length self.old.calls ≡ 0 }
        requires other { length other.now.calls ≡ 0 }
        ensures ok { OnOk result (self.new ≡ other.now) }
        ensures err { OnErr result (self.new ≡ self.old) }
    {
        let _theirs = &other.state;
        let idle = other.copy_idle()?;
        self.state.take_over(idle);
        Ok(())
    }
}

impl<K, D> Desk<K, D>
where
    K: SigningCredential + EqualByValue,
    D: DeadlineRule<Credential = K>,
{
    ghost use Rattle.desk_parts.specs.Tables.{setup_of};
    ghost use Rattle.sign_desk.specs.Idle.{desk_at};

    /// Whether the desk has no live call, and keeps this beside its setup. No memory is taken.
    pub fn is_idle_at(&self, idle: &IdleDesk<K>) -> bool
        ensures { MatchBool result (self.now ≡ desk_at (setup_of self.now) idle.now)
            (self.now ≢ desk_at (setup_of self.now) idle.now) }
    {
        self.state.keeps(idle)
    }
}

impl<K: SigningCredential, D: DeadlineRule<Credential = K>> State<K, D> {
    ghost use Rattle.sign_desk.specs.Idle.{with_idle};

    /// Puts these in the place of the caches, the numbers and the mark of a begin.
    fn take_over(&mut self, idle: IdleDesk<K>)
        ensures { self.new ≡ with_idle idle self.old }
    {
        let IdleDesk {
            caches,
            last_numbers,
            has_begun_calls,
        } = idle;
        self.tables.caches = caches;
        self.tables.last_numbers = last_numbers;
        self.tables.has_begun_calls = has_begun_calls;
    }
}

impl<K: EqualByValue, D> State<K, D> {
    ghost use Rattle.sign_desk.specs.Idle.{IsIdleAt};

    /// Whether no call is live, and this is kept.
    fn keeps(&self, idle: &IdleDesk<K>) -> bool
        ensures { MatchBool result (IsIdleAt self.now idle.now) (IsIdleAt self.now idle.now → ⊥) }
    {
        self.tables.calls.len() == 0
            && same_cached(self.tables.caches.as_slice(), idle.caches.as_slice())
            && same_numbers(
                self.tables.last_numbers.as_slice(),
                idle.last_numbers.as_slice(),
            )
            && self.tables.has_begun_calls == idle.has_begun_calls
    }
}

/// Copies, one after another.
fn copy_all<T: SigningCredential>(items: &[T], alloc: Global) -> Result<Vec<T>, NoMemory<()>>
    ensures { IfOk result (λ copies. copies.items ≡ items.now) }
{
    let mut copies = Vec::with_capacity(alloc, items.len())?;
    for item in items {
        copies.push_reserved(item.try_clone(alloc)?);
    }
    Ok(copies)
}

fn same_cached<K: EqualByValue>(a: &[Option<K>], b: &[Option<K>]) -> bool
    ensures { MatchBool result (a.now ≡ b.now) (a.now ≢ b.now) }
{
    if a.len() != b.len() {
        return false;
    }
    for i in 0..a.len() {
        if !same_credential(&a[i], &b[i]) {
            return false;
        }
    }
    true
}

fn same_credential<K: EqualByValue>(a: &Option<K>, b: &Option<K>) -> bool
    ensures { MatchBool result (a.now ≡ b.now) (a.now ≢ b.now) }
{
    match a {
        Some(mine) => match b {
            Some(theirs) => is_same(mine, theirs),
            None => false,
        },
        None => b.is_none(),
    }
}

fn same_numbers(a: &[Option<u64>], b: &[Option<u64>]) -> bool
    ensures { MatchBool result (a.now ≡ b.now) (a.now ≢ b.now) }
{
    if a.len() != b.len() {
        return false;
    }
    for i in 0..a.len() {
        if a[i] != b[i] {
            return false;
        }
    }
    true
}
