//! What closing looks for in a journal and passes, test by test. Each goes over them once, and takes no
//! memory.
ghost use Rattle.std.specs.Prelude.{◌≡◌, ◌<◌, ◌≢◌, All, MatchOption, MatchBool, length};
ghost use Rattle.std.specs.List.Sorted.{IsStrictlyIncreasing};
ghost use Rattle.signer_book.specs.Settled.{all_receipts, places, IsEntryOf, AreEntriesOf, AreRising};
ghost use Rattle.signer_book.specs.Close.{IsFirstIn, IsFirstAt, DiffersAt, FallsAt, place_at};

use crate::pass::{Pass, Receipt};
use sequential_signer::{Entry, same_entry};
use sign_base::EqualByValue;

/// A receipt that is not the journal's entry at its place.
#[derive(Clone, Copy)]
pub(crate) struct Difference {
    pub pass: u32,
    pub at: u64,
    pub place: u64,
}

/// A receipt whose place is not above that of the receipt before it.
#[derive(Clone, Copy)]
pub(crate) struct Fall {
    pub pass: u32,
    pub at: u64,
}

/// The number of all receipts.
pub(crate) fn count_receipts<K>(passes: &[Pass<K>]) -> u128
    requires { length passes.now < 4294967295 }
    ensures { result ≡ length (all_receipts passes.now) }
{
    let mut count = 0u128;
    for pass in passes {
        count += pass.receipts().len() as u128;
    }
    count
}

/// The first receipt that is not the journal's entry at its place.
pub(crate) fn first_difference<K: EqualByValue>(
    journal: &[Entry<K>],
    passes: &[Pass<K>],
) -> Option<Difference>
    requires { length passes.now < 4294967295 }
    ensures { MatchOption result (AreEntriesOf journal.now passes.now)
        (λ d. IsFirstAt (DiffersAt journal.now) passes.now d.pass d.at
        × (place_at passes.now d.pass d.at ≡ Some d.place)) }
{
    for (number, pass) in passes.iter().enumerate() {
        let receipts = pass.receipts();
        if let Some(at) = difference_in(journal, receipts) {
            return Some(Difference {
                pass: number as u32,
                at: at as u64,
                place: receipts[at].place,
            });
        }
    }
    None
}

fn difference_in<K: EqualByValue>(journal: &[Entry<K>], receipts: &[Receipt<K>]) -> Option<usize>
    ensures { MatchOption result (All (IsEntryOf journal.now) receipts.now)
        (λ at. (at < length receipts.now) × IsFirstIn (DiffersAt journal.now) receipts.now at) }
{
    for (at, receipt) in receipts.iter().enumerate() {
        if !is_entry_of(journal, receipt) {
            return Some(at);
        }
    }
    None
}

fn is_entry_of<K: EqualByValue>(journal: &[Entry<K>], receipt: &Receipt<K>) -> bool
    ensures { MatchBool result (IsEntryOf journal.now receipt.now) (IsEntryOf journal.now receipt.now → ⊥) }
{
    match journal.get(receipt.place as usize) {
        Some(entry) => same_entry(entry, &receipt.entry),
        None => false,
    }
}

/// The first receipt whose place is not above that of the receipt before it.
pub(crate) fn first_fall<K>(passes: &[Pass<K>]) -> Option<Fall>
    requires { length passes.now < 4294967295 }
    ensures { MatchOption result (AreRising passes.now)
        (λ fall. IsFirstAt FallsAt passes.now fall.pass fall.at) }
{
    for (number, pass) in passes.iter().enumerate() {
        if let Some(at) = fall_in(pass.receipts()) {
            return Some(Fall {
                pass: number as u32,
                at: at as u64,
            });
        }
    }
    None
}

fn fall_in<K>(receipts: &[Receipt<K>]) -> Option<usize>
    ensures { MatchOption result (IsStrictlyIncreasing (places receipts.now))
        (λ at. IsFirstIn FallsAt receipts.now at) }
{
    for at in 1..receipts.len() {
        if receipts[at].place <= receipts[at - 1].place {
            return Some(at);
        }
    }
    None
}
