//! Good lines of `audit` are taken into account: caches and handles at once, an event with its claim.
ghost use Rattle.std.specs.Prelude.{◌≡◌, ◌+◌, ◌<◌, Some, OnOk};
ghost use Rattle.sequential_signer.specs.declared.event.Event.{Event};
ghost use Rattle.signctl_format.specs.declared.credential.ScriptCredential.{ScriptCredential};
ghost use Rattle.signctl_format.specs.declared.item.Item.TheVariants as item;
ghost use Rattle.signctl_audit.specs.Account.{Account, subject_in, with_item, with_claim};
ghost use Rattle.signctl_audit.specs.SessionState.{HasSigner};
ghost use Rattle.signctl_audit.specs.Taking.{CanTake, CanTakeClaim, CanHappen, IsLegalOrNoMemory};
ghost use Rattle.signctl_audit.specs.Taking.{TakesItem, TakesClaim};
ghost use Rattle.signctl_audit.specs.declared.audit_line.Subject.TheVariants.{Event as Happened};

use crate::audit_line::{Subject, Unclaimed};
use crate::audit_session::AuditSession;
use crate::claim_check::is_missed;
use crate::claimed_reply::ClaimedReply;
use crate::log_stage::LogStage;
use sequential_signer::Loader;
use sign_audit::{Audit, Claim};
use sign_base::NoMemory;
use sign_desk::{AddError, Desk};
use signctl_format::{Item, ScriptCredential, ScriptEvent, ScriptRule};

impl AuditSession {
    /// Takes a line of a script into account.
    pub(crate) fn take_item(&mut self, item: Item<ScriptEvent>) -> Result<(), NoMemory<()>>
        requires { CanTake self.old item }
        ensures takes { OnOk result (TakesItem item self.old self.new) }
        ensures lines { self.new.lines ≡ self.old.lines }
        ensures version { self.new.version ≡ self.old.version }
    {
        match item {
            Item::Silent => Ok(()),
            Item::Cache(loader) => self.take_cache(loader),
            Item::Handle { cache, rule } => self.take_handle(cache, rule),
            Item::Event(event) => self.take_event(event),
        }
    }

    fn take_cache(&mut self, loader: Loader) -> Result<(), NoMemory<()>>
        requires { CanTake self.old (item.Cache loader) }
        ensures takes { OnOk result (TakesItem (item.Cache loader) self.old self.new) }
        ensures lines { self.new.lines ≡ self.old.lines }
        ensures version { self.new.version ≡ self.old.version }
    {
        let LogStage::Setup(desk) = &mut self.stage else {
            return Ok(());
        };
        match desk.add_cache(loader) {
            Ok(number) => {
                self.caches += 1;
                self.unclaimed = Some(wants_claim(self.lines, Subject::Cache(number)));
                Ok(())
            }
            Err(refusal) => Err(out_of_memory(refusal)),
        }
    }

    fn take_handle(&mut self, cache: u32, rule: ScriptRule) -> Result<(), NoMemory<()>>
        requires { CanTake self.old (item.Handle cache rule) }
        ensures takes { OnOk result (TakesItem (item.Handle cache rule) self.old self.new) }
        ensures lines { self.new.lines ≡ self.old.lines }
        ensures version { self.new.version ≡ self.old.version }
    {
        let LogStage::Setup(desk) = &mut self.stage else {
            return Ok(());
        };
        match desk.add_handle(cache, rule.place()) {
            Ok(number) => {
                self.unclaimed = Some(wants_claim(self.lines, Subject::Handle(number)));
                Ok(())
            }
            Err(refusal) => Err(out_of_memory(refusal)),
        }
    }

    /// What an event does waits for its claim.
    fn take_event(&mut self, event: ScriptEvent) -> Result<(), NoMemory<()>>
        requires { CanTake self.old (item.Event event) }
        ensures takes { OnOk result (TakesItem (item.Event event) self.old self.new) }
        ensures lines { self.new.lines ≡ self.old.lines }
        ensures version { self.new.version ≡ self.old.version }
    {
        self.begin_audit()?;
        self.events += 1;
        self.unclaimed = Some(wants_claim(self.lines, Subject::Event(event)));
        Ok(())
    }

    /// The first event hands the desk to the audit.
    fn begin_audit(&mut self) -> Result<(), NoMemory<()>>
        requires { (so_far : Account) × HasSigner self.old.stage so_far }
        ensures rest { self.new ≡ record self.old { stage = self.new.stage } }
        ensures signer { OnOk result ((so_far : Account) (event : Event ScriptCredential)
            → HasSigner self.old.stage so_far
            → HasSigner self.new.stage (with_item so_far (item.Event event))) }
    {
        let desk = match &mut self.stage {
            LogStage::Setup(desk) => desk,
            LogStage::Judging(_) => return Ok(()),
        };
        let alloc = desk.alloc();
        let fresh = std::mem::replace(desk, Desk::new(alloc));
        match Audit::new(fresh) {
            Ok(audit) => {
                self.stage = LogStage::Judging(audit);
                Ok(())
            }
            Err(_) => Err(NoMemory { back: () }),
        }
    }

    /// Takes a claim, which was found right when its line was read.
    pub(crate) fn take_claim(&mut self, claimed: &ClaimedReply) -> Result<(), NoMemory<()>>
        requires { CanTakeClaim self.old claimed.now }
        ensures takes { OnOk result (TakesClaim claimed.now self.old self.new) }
        ensures lines { self.new.lines ≡ self.old.lines }
        ensures version { self.new.version ≡ self.old.version }
    {
        match self.unclaimed.take() {
            Some(
                Unclaimed {
                    subject: Subject::Event(event),
                    ..
                },
            ) => self.take_event_claim(&event, claimed),
            _ => Ok(()),
        }
    }

    /// The event happens, as it was claimed.
    fn take_event_claim(
        &mut self,
        event: &ScriptEvent,
        claimed: &ClaimedReply,
    ) -> Result<(), NoMemory<()>>
        requires { CanHappen self.old event.now claimed.now }
        ensures signer { OnOk result ((so_far : Account) → HasSigner self.old.stage so_far
            → subject_in so_far ≡ Some (Happened event.now)
            → HasSigner self.new.stage (with_claim so_far claimed.now)) }
        ensures rest { self.new ≡ record self.old { stage = self.new.stage } }
    {
        let LogStage::Judging(audit) = &mut self.stage else {
            return Ok(());
        };
        legal_or_no_memory(audit.claim_by(event.as_event(), is_missed(claimed), |_| true))
    }
}

/// The one refusal that a good line can meet.
fn out_of_memory(refusal: AddError) -> NoMemory<()>
    requires { refusal ≡ AddError.OutOfMemory }
{
    let _ = refusal;
    NoMemory { back: () }
}

/// The line after so many wants a claim about this.
fn wants_claim(lines: u64, subject: Subject) -> Unclaimed
    requires { lines < 18446744073709551615 }
    ensures { result ≡ record { line = lines + 1; subject = subject } }
{
    Unclaimed {
        line: lines + 1,
        subject,
    }
}

/// A right claim is legal, unless an allocation failed.
fn legal_or_no_memory(claim: Claim<ScriptCredential>) -> Result<(), NoMemory<()>>
    requires { IsLegalOrNoMemory claim }
    ensures { OnOk result (claim ≡ Claim.Legal) }
{
    match claim {
        Claim::Legal => Ok(()),
        Claim::OutOfMemory => Err(NoMemory { back: () }),
        Claim::Due(_) => unreachable!(),
    }
}
