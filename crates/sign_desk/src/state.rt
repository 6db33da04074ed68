//! What a signer's desk keeps: the tables of every desk, with a queue for each cache, and the begun head of
//! each live call.
ghost use Rattle.std.specs.Prelude.{◌≡◌, IfSome};

use crate::boxed_head::BoxedHead;
use desk_parts::{CallQueue, LiveCallView, Tables};
use sequential_signer::{DeadlineRule, SigningCredential};
use sign_base::CallId;
use std::marker::Model;

#[derive(Drop)]
pub struct State<K, D> {
    pub(crate) tables: Tables<K, D, CallQueue, BoxedHead>,
}

impl<K, D> Model for State<K, D> {
    ghost use Rattle.sign_desk.specs.DeskState.{DeskState};

    ghost Value = { DeskState K D };

    ghost view = { λ state. state.tables };
}

impl<K: SigningCredential, D: DeadlineRule<Credential = K>> State<K, D> {
    ghost use Rattle.desk_parts.specs.LiveCallView.{find_view};
    ghost use Rattle.sign_desk.specs.StepPrecondition.{StepPrecondition, IsPlaced};

    /// The live call of this name, with its places.
    pub fn find(&self, call: CallId) -> Option<LiveCallView>
        requires { StepPrecondition self.now }
        ensures view { result ≡ find_view self.now call }
        ensures named { IfSome result (λ view. view.call ≡ call) }
        ensures placed { IfSome result (IsPlaced self.now) }
    {
        self.tables.find(call)
    }
}
