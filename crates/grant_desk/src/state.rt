//! What a granter's desk keeps: the tables of every desk. Nobody waits for a turn, so nothing stands in place
//! of a queue, and no call is begun with a head.
ghost use Rattle.std.specs.Prelude.{◌≡◌, IfSome};

use desk_parts::{LiveCallView, Tables};
use sequential_signer::{DeadlineRule, SigningCredential};
use sign_base::CallId;
use std::marker::Model;

#[derive(Drop)]
pub struct State<K, D> {
    pub(crate) tables: Tables<K, D, (), ()>,
}

impl<K, D> Model for State<K, D> {
    ghost use Rattle.grant_desk.specs.GrantDeskState.{GrantState};

    ghost Value = { GrantState K D };

    ghost view = { λ state. state.tables };
}

impl<K: SigningCredential, D: DeadlineRule<Credential = K>> State<K, D> {
    ghost use Rattle.desk_parts.specs.LiveCallView.{find_view};
    ghost use Rattle.grant_desk.specs.GrantPlaces.{GrantPrecondition, IsGrantPlaced};

    /// The live call of this name, with its places.
    pub fn find(&self, call: CallId) -> Option<LiveCallView>
        requires { GrantPrecondition self.now }
        ensures view { result ≡ find_view self.now call }
        ensures named { IfSome result (λ view. view.call ≡ call) }
        ensures placed { IfSome result (IsGrantPlaced self.now) }
    {
        self.tables.find(call)
    }
}
