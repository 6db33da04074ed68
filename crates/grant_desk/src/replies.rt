//! The replies to a live call. Each notes how far the call is from now on.
ghost use Rattle.std.specs.Prelude.{◌≡◌, IsSome};
ghost use Rattle.sequential_signer.specs.ExpectedGrantReply.{grant_why};

use crate::state::State;
use desk_parts::{LiveCallView, Stage};
use sequential_signer::{DeadlineRule, GrantReply, GrantWhy, SigningCredential, Why};
use sign_base::CallId;

impl<K: SigningCredential, D: DeadlineRule<Credential = K>> State<K, D> {
    ghost use Rattle.sequential_signer.specs.declared.grant_event.GrantReply.TheVariants.{Ask, Grant};
    ghost use Rattle.sequential_signer.specs.declared.grant_event.GrantReply.TheVariants.{Refused};
    ghost use Rattle.desk_parts.specs.Tables.{find_call};
    ghost use Rattle.desk_parts.specs.Action.{TakesEffect, live_effect, end_effect};
    ghost use Rattle.desk_parts.specs.declared.call_record.Stage.TheVariants.{Loading, Signing};

    /// The call loads, and waits for the answer of this provider.
    pub fn ask(&mut self, view: LiveCallView, provider: u32) -> GrantReply<K>
        requires { IsSome (find_call view.call self.old.calls) }
        ensures { TakesEffect (live_effect self.old (record view { stage = Loading }) (Ask provider))
            view.call result self.new }
    {
        self.tables.note_progress(LiveCallView {
            stage: Stage::Loading,
            ..view
        });
        GrantReply::Ask { provider }
    }

    /// The granter makes a credential from this source for the call, which waits for it.
    pub fn grant(&mut self, view: LiveCallView, source: K) -> GrantReply<K>
        requires { IsSome (find_call view.call self.old.calls) }
        ensures { TakesEffect (live_effect self.old (record view { stage = Signing }) (Grant source))
            view.call result self.new }
    {
        self.tables.note_progress(LiveCallView {
            stage: Stage::Signing,
            ..view
        });
        GrantReply::Grant { source }
    }

    /// The call is over.
    pub fn refuse(&mut self, call: CallId, why: GrantWhy) -> GrantReply<K>
        ensures { TakesEffect (end_effect self.old (Refused why)) call result self.new }
    {
        self.tables.end_call(call);
        GrantReply::Refused { why }
    }
}

/// Why a granter refuses, where a look or a load refuses for this cause.
pub fn as_grant_why(why: Why) -> GrantWhy
    ensures { result ≡ grant_why why }
{
    match why {
        Why::Missing => GrantWhy::Missing,
        Why::Short(deadline) => GrantWhy::Short(deadline),
        Why::Range => GrantWhy::Range,
        Why::Loader(e) => GrantWhy::Loader(e),
        Why::Service(e) => GrantWhy::Service(e),
    }
}
