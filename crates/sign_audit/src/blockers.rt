//! The calls for which a call waits.
ghost use Rattle.std.specs.Prelude.{◌≡◌, ◌<◌, List, IfOk, IfSome, length};
ghost use Rattle.sign_base.specs.Calls.{first_of};
ghost use Rattle.sequential_signer.specs.Policy.{policy_for};
ghost use Rattle.sequential_signer.specs.Transcript.{committed_entries};
ghost use Rattle.sequential_signer.specs.declared.event.Entry.{Entry};
ghost use Rattle.sequential_signer.specs.Setup.{cache_of};
ghost use Rattle.desk_parts.specs.Tables.{setup_of, find_call};
ghost use Rattle.sign_audit.specs.AuditState.{AuditRepresents};
ghost use Rattle.sign_audit.specs.Blockers.{blockers_of, waits_at};

use crate::audit::Audit;
use sequential_signer::{DeadlineRule, SigningCredential};
use sign_base::{CallId, NoMemory};
use sign_desk::Stage;

impl<K: SigningCredential, D: DeadlineRule<Credential = K>> Audit<K, D> {
    /// The calls of the same cache that were polled before this one and whose holds are open, in the order of
    /// their first polls. Of a call that was not polled yet these are all that were; of one that is unknown
    /// or over, or is signing, there are none.
    pub fn blockers(&self, call: CallId) -> Result<Vec<CallId>, NoMemory<()>>
        ensures { IfOk result (λ calls. (entries : List (Entry K))
            → AuditRepresents (policy_for K.SigningCredential D.DeadlineRule) self.now entries
            → calls.items ≡ blockers_of (setup_of self.now.desk) (committed_entries entries) call) }
    {
        match self.waits_at(call) {
            Some(cache) => self.orders.at(cache).before(self.desk.alloc(), call),
            None => Ok(Vec::new(self.desk.alloc())),
        }
    }

    /// The first of `blockers`. It takes no memory and no walk along the others.
    pub fn first_blocker(&self, call: CallId) -> Option<CallId>
        ensures { (entries : List (Entry K))
            → AuditRepresents (policy_for K.SigningCredential D.DeadlineRule) self.now entries
            → result ≡ first_of (blockers_of (setup_of self.now.desk) (committed_entries entries) call) }
    {
        let cache = self.waits_at(call)?;
        let first = self.orders.at(cache).first()?;
        if first == call {
            return None;
        }
        Some(first)
    }

    /// The cache in whose order the call stands, or will stand by its first poll.
    fn waits_at(&self, call: CallId) -> Option<u32>
        ensures says { result ≡
            waits_at (find_call call self.now.desk.calls) (cache_of (setup_of self.now.desk) call) }
        ensures there { IfSome result (λ cache. cache < length self.now.desk.queues) }
    {
        let stage = self.desk.stage_of(call)?;
        match stage {
            Stage::Unpolled | Stage::Queued | Stage::Loading => self.desk.cache_of(call.handle),
            Stage::Signing => None,
        }
    }
}
