//! Whether a place is in two passes: the passes are gone over once, and each place gets its first pass as its
//! owner.
ghost use Rattle.std.specs.Prelude.{◌≡◌, ◌<◌, ◌++◌, ◌∷◌, [], ℕ, List, All, MatchOption, length};
ghost use Rattle.std.specs.List.Sorted.{IsStrictlyIncreasing};
ghost use Rattle.signer_book.specs.Settled.{places, AreRising, AreDistinct};
ghost use Rattle.signer_book.specs.Close.{HasPlace, IsFirstDouble};
ghost use Rattle.signer_book.specs.Doubles.{AreOwners, lower_double};
ghost use Rattle.signer_book.specs.declared.pass.Receipt.{Receipt};

use crate::pass::{Pass, Receipt};

/// The mark of a place that no pass has.
pub(crate) const NOBODY: u32 = u32::MAX;

/// A place, and two passes that have it.
#[derive(Clone, Copy)]
pub(crate) struct Double {
    pub place: u64,
    pub first: u32,
    pub second: u32,
}

/// The lowest place that two passes have, with the two lowest passes that have it. `owners` has `NOBODY`
/// for each place.
pub(crate) fn first_double<K>(owners: &mut [u32], passes: &[Pass<K>]) -> Option<Double>
    requires few { length passes.now < 4294967295 }
    requires free { All (λ owner. owner ≡ 4294967295) owners.old }
    requires within { All (All (λ r. r.place < length owners.old)) passes.now }
    requires rising { AreRising passes.now }
    ensures { MatchOption result (AreDistinct passes.now)
        (λ double. IsFirstDouble (HasPlace passes.now) double.place double.first double.second) }
{
    let mut lowest = None;
    for (number, pass) in passes.iter().enumerate() {
        lowest = own_places(owners, pass.receipts(), number as u32, lowest);
    }
    lowest
}

/// Makes the pass the owner of each of its places that has none. Returns the lowest place that then has
/// two passes.
fn own_places<K>(
    owners: &mut [u32],
    receipts: &[Receipt<K>],
    number: u32,
    before: Option<Double>,
) -> Option<Double>
    requires number { number < 4294967295 }
    requires within { All (λ r. r.place < length owners.old) receipts.now }
    requires rising { IsStrictlyIncreasing (places receipts.now) }
    ensures { (passes : List (List (Receipt K))) → length passes ≡ number
        → AreOwners (HasPlace passes) owners.old before
        → AreOwners (HasPlace (passes ++ receipts.now ∷ [])) owners.new result }
{
    let mut lowest = before;
    for receipt in receipts {
        let place = receipt.place as usize;
        let owner = owners[place];
        if owner == NOBODY {
            owners[place] = number;
        } else {
            lowest = Some(lower(
                lowest,
                Double {
                    place: receipt.place,
                    first: owner,
                    second: number,
                },
            ));
        }
    }
    lowest
}

/// The lower of two: the one before, at one place.
fn lower(before: Option<Double>, double: Double) -> Double
    ensures { result ≡ lower_double before double }
{
    match before {
        Some(before) if before.place <= double.place => before,
        _ => double,
    }
}
