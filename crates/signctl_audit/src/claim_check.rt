//! Whether a claim is right: its words are compared with the line of the answer that is due.
ghost use Rattle.std.specs.Prelude.{◌≡◌, ◌&&◌, IfOk};
ghost use Rattle.std.specs.Str.{bytes_eq};
ghost use Rattle.sequential_signer.specs.Phase.{is_pending};
ghost use Rattle.signctl_audit.specs.AuditCauses.{due_line};
ghost use Rattle.signctl_audit.specs.Account.{Account, reply_due, is_missed};
ghost use Rattle.signctl_audit.specs.AuditReading.{may_miss, behind_of, due_error, subject_error};
ghost use Rattle.signctl_audit.specs.SessionState.{IsAudited};
ghost use Rattle.signctl_audit.specs.declared.audit_line.Subject.TheVariants.{Event as Happened};

use crate::audit_error::{AuditError, Due, push_due};
use crate::claimed_reply::ClaimedReply;
use sequential_signer::Reply;
use sign_audit::Audit;
use sign_base::{CallId, NoMemory};
use signctl_format::{ScriptCredential, ScriptEvent, ScriptRule};
use std::alloc::Global;

/// Whether a claim is that an allocation failed.
pub(crate) fn is_missed(claimed: &ClaimedReply) -> bool
    ensures { result ≡ is_missed claimed.now }
{
    matches!(claimed, ClaimedReply::OutOfMemory)
}

/// Why these words are bad, where they are, by the answer that is due and whom its call waits for.
pub(crate) fn differs(
    alloc: Global,
    due: Due,
    behind: Option<CallId>,
    text: &[u8],
) -> Result<Option<AuditError>, NoMemory<()>>
    ensures { IfOk result (λ error. error ≡ due_error due behind text.now) }
{
    if is_line_of(alloc, &due, text)? {
        return Ok(None);
    }
    Ok(Some(AuditError::Differs { due, behind }))
}

/// Why a claim about an event, in these words, is bad, where it is.
pub(crate) fn event_differs(
    alloc: Global,
    audit: &Audit<ScriptCredential, ScriptRule>,
    event: &ScriptEvent,
    claimed: &ClaimedReply,
    text: &[u8],
) -> Result<Option<AuditError>, NoMemory<()>>
    ensures { IfOk result (λ error. (so_far : Account) → IsAudited audit.now so_far
        → error ≡ subject_error so_far (Happened event.now) claimed.now text.now) }
{
    if is_excused(audit, event, claimed) {
        return Ok(None);
    }
    let reply = due_reply(audit, event)?;
    let behind = behind(audit, event, &reply);
    differs(alloc, Due::Reply(reply), behind, text)
}

/// Whether a claim is that an allocation failed, and one may have.
fn is_excused(
    audit: &Audit<ScriptCredential, ScriptRule>,
    event: &ScriptEvent,
    claimed: &ClaimedReply,
) -> bool
    ensures { (so_far : Account) → IsAudited audit.now so_far
        → result ≡ (is_missed claimed.now && may_miss so_far (Happened event.now)) }
{
    is_missed(claimed) && audit.may_run_out(event.as_event())
}

/// The expected reply to an event.
fn due_reply(
    audit: &Audit<ScriptCredential, ScriptRule>,
    event: &ScriptEvent,
) -> Result<Reply<ScriptCredential>, NoMemory<()>>
    ensures { IfOk result
        (λ reply. (so_far : Account) → IsAudited audit.now so_far → reply ≡ reply_due so_far event.now) }
{
    let reply = audit.due(event.as_event());
    if reply.is_out_of_memory() {
        return Err(NoMemory { back: () });
    }
    Ok(reply)
}

/// Of a call that has to wait, the first of those that it waits for.
fn behind(
    audit: &Audit<ScriptCredential, ScriptRule>,
    event: &ScriptEvent,
    reply: &Reply<ScriptCredential>,
) -> Option<CallId>
    ensures { (so_far : Account) → IsAudited audit.now so_far → reply.now ≡ reply_due so_far event.now
        → result ≡ behind_of so_far (Happened event.now) }
{
    if is_pending(reply) {
        audit.first_blocker(event.as_event().call())
    } else {
        None
    }
}

/// Whether a text is the line of this answer.
fn is_line_of(alloc: Global, due: &Due, text: &[u8]) -> Result<bool, NoMemory<()>>
    ensures { IfOk result (λ same. same ≡ bytes_eq text.now (due_line due.now)) }
{
    let mut line = Vec::new(alloc);
    push_due(&mut line, due)?;
    Ok(text == line.as_slice())
}

/// Whether a reply is to wait.
fn is_pending(reply: &Reply<ScriptCredential>) -> bool
    ensures { result ≡ is_pending reply.now }
{
    matches!(reply, Reply::Pending)
}
