//! Closing a book: the tests, in order, over its desk and journal.
ghost use Rattle.std.specs.Prelude.{◌≡◌, ◌≤◌, ◌<◌, MatchResult, length, vec_capacity, replicate};
ghost use Rattle.desk_parts.specs.Tables.{setup_of};
ghost use Rattle.signer_book.specs.Settled.{IsSettled};
ghost use Rattle.signer_book.specs.Close.{IsCloseCause};

use crate::comparisons::{count_receipts, first_difference, first_fall};
use crate::doubles::{NOBODY, first_double};
use crate::pass::Pass;
use crate::settled::CloseError;
use sequential_signer::{DeadlineRule, Entry, SigningCredential};
use sign_base::EqualByValue;
use sign_desk::Desk;

/// Whether the journal is closed by these passes, or the first cause for which it is not. `owners` has
/// room for a mark of each entry.
pub(crate) fn check_close<K, D>(
    desk: &Desk<K, D>,
    journal: &[Entry<K>],
    owners: &mut Vec<u32>,
    plan: &Desk<K, D>,
    passes: &[Pass<K>],
) -> Result<(), CloseError>
where
    K: SigningCredential + EqualByValue,
    D: DeadlineRule<Credential = K> + EqualByValue,
    requires few { length passes.now < 4294967295 }
    requires room { length journal.now ≤ vec_capacity owners.old }
    ensures why { MatchResult result
        (λ _. (setup_of desk.now ≡ setup_of plan.now) × IsSettled journal.now passes.now)
        (λ why. IsCloseCause plan.now (record { desk = desk.now; journal = journal.now }) passes.now why) }
    ensures capacity { vec_capacity owners.old ≤ vec_capacity owners.new }
{
    if !desk.same_setup(plan) {
        return Err(CloseError::Setup);
    }
    let have = count_receipts(passes);
    let want = journal.len() as u64;
    if have != u128::from(want) {
        return Err(CloseError::Absent { have, want });
    }
    if let Some(difference) = first_difference(journal, passes) {
        return Err(CloseError::Differs {
            pass: difference.pass,
            at: difference.at,
            place: difference.place,
        });
    }
    if let Some(fall) = first_fall(passes) {
        return Err(CloseError::Falls {
            pass: fall.pass,
            at: fall.at,
        });
    }
    free_places(owners, journal.len());
    match first_double(owners.as_mut_slice(), passes) {
        Some(double) => Err(CloseError::Twice {
            place: double.place,
            first: double.first,
            second: double.second,
        }),
        None => Ok(()),
    }
}

/// Marks so many places as nobody's.
fn free_places(owners: &mut Vec<u32>, places: usize)
    requires { places ≤ vec_capacity owners.old }
    ensures items { owners.new.items ≡ replicate places 4294967295 }
    ensures capacity { vec_capacity owners.old ≤ vec_capacity owners.new }
{
    owners.clear();
    let _there_is_room = owners.resize(places, NOBODY);
}
