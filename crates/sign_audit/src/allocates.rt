//! Which events may run out of memory.
ghost use Rattle.std.specs.Prelude.{◌≡◌, List};
ghost use Rattle.sequential_signer.specs.Legal.{allocates};
ghost use Rattle.sequential_signer.specs.Policy.{policy_for};
ghost use Rattle.sequential_signer.specs.Transcript.{committed_entries};
ghost use Rattle.sequential_signer.specs.declared.event.Entry.{Entry};
ghost use Rattle.desk_parts.specs.Tables.{setup_of};
ghost use Rattle.sign_desk.specs.DeskState.{Represents};
ghost use Rattle.sign_audit.specs.Memory.{tells_memory, finds, accepts};

use sequential_signer::{Answer, DeadlineRule, Event, Reply, SigningCredential, Verdict};
use sign_desk::{Desk, Stage};

/// Whether the event may run out of memory now. A credential that is found and then refused counts too.
pub(crate) fn allocates<K: SigningCredential, D: DeadlineRule<Credential = K>>(
    desk: &Desk<K, D>,
    event: &Event<K>,
) -> bool
    ensures { (entries : List (Entry K))
        → Represents (policy_for K.SigningCredential D.DeadlineRule) desk.now entries
        → result ≡ allocates (policy_for K.SigningCredential D.DeadlineRule) (setup_of desk.now)
        (committed_entries entries) event.now }
{
    match event {
        Event::Begin { .. } | Event::Poll { .. } => takes_memory(&desk.preview(event)),
        Event::Provided { call, answer, .. } => finds(desk.stage_of(*call), answer),
        Event::Signed { call, answer } => accepts(desk.stage_of(*call), answer),
        Event::Cancel { .. } => false,
    }
}

/// Whether this reply to a begin or a poll says that memory is taken.
fn takes_memory<K>(reply: &Reply<K>) -> bool
    ensures { result ≡ tells_memory reply.now }
{
    matches!(
        reply,
        Reply::Begun | Reply::Sign { .. } | Reply::OutOfMemory
    )
}

/// Whether a credential was found for a call at this stage.
fn finds<K>(stage: Option<Stage>, answer: &Answer<K>) -> bool
    ensures { result ≡ finds stage answer.now }
{
    matches!((stage, answer), (Some(Stage::Loading), Answer::Found(_)))
}

/// Whether the head of a call at this stage was accepted.
fn accepts(stage: Option<Stage>, answer: &Verdict) -> bool
    ensures { result ≡ accepts stage answer.now }
{
    matches!(
        (stage, answer),
        (Some(Stage::Signing), Verdict::Accepted(_))
    )
}
