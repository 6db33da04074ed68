//! Whether two desks are set up alike.
ghost use Rattle.std.specs.Prelude.{◌≡◌, ◌≢◌, MatchBool, map};
ghost use Rattle.desk_parts.specs.Tables.{setup_of};
ghost use Rattle.desk_parts.specs.TablesView.{handle_view};

use crate::desk::Desk;
use desk_parts::HandleRecord;
use sequential_signer::{DeadlineRule, SigningCredential};
use sign_base::{EqualByValue, are_same};

impl<K: SigningCredential, D: DeadlineRule<Credential = K> + EqualByValue> Desk<K, D> {
    /// Whether both desks have the same loaders, rules and handles, in the same order. No memory is taken.
    pub fn same_setup(&self, other: &Desk<K, D>) -> bool
        ensures { MatchBool result (setup_of self.now ≡ setup_of other.now)
            (setup_of self.now ≢ setup_of other.now) }
    {
        let mine = &self.state.tables;
        let theirs = &other.state.tables;
        are_same(mine.loaders.as_slice(), theirs.loaders.as_slice())
            && are_same(mine.rules.as_slice(), theirs.rules.as_slice())
            && same_handles(mine.handles.as_slice(), theirs.handles.as_slice())
    }
}

fn same_handles(a: &[HandleRecord], b: &[HandleRecord]) -> bool
    ensures { MatchBool result (map handle_view a.now ≡ map handle_view b.now)
        (map handle_view a.now ≢ map handle_view b.now) }
{
    are_same(a, b)
}
