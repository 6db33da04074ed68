//! What a line of `audit` reads as, after those before it.
ghost use Rattle.std.specs.Prelude.{◌≡◌, not, IfOk};
ghost use Rattle.signctl_format.specs.Reading.{item_of};
ghost use Rattle.signctl_format.specs.ScriptSetup.{is_empty, events_in, setup_error};
ghost use Rattle.signctl_audit.specs.ClaimReading.{claim_of};
ghost use Rattle.signctl_audit.specs.Account.{Account, version_in, subject_in};
ghost use Rattle.signctl_audit.specs.AuditReading.{overdue, script_error, audit_item_error, item_reading};
ghost use Rattle.signctl_audit.specs.AuditReading.{claim_error, claim_reading};
ghost use Rattle.signctl_audit.specs.SessionState.{RepresentsAccount};

use crate::audit_error::{AuditError, Due};
use crate::audit_line::{AuditLine, Subject, Unclaimed};
use crate::audit_session::AuditSession;
use crate::claim_check::{differs, event_differs};
use crate::claimed_reply::ClaimedReply;
use crate::log_stage::LogStage;
use crate::read_claim::read_claimed_reply;
use sign_base::NoMemory;
use signctl_format::{Item, LineError, ReadError, ScriptEvent, read_line, setup_error};
use std::alloc::Global;

impl AuditSession {
    /// What a line of a script reads as.
    pub(crate) fn read_script_line(
        &self,
        alloc: Global,
        line: &[u8],
    ) -> Result<Result<AuditLine, AuditError>, NoMemory<()>>
        ensures { IfOk result (λ reading. (so_far : Account) → RepresentsAccount self.now so_far
            → reading ≡ item_reading so_far (item_of (version_in so_far) line.now)) }
    {
        match read_line(alloc, self.script_version(), line) {
            Ok(item) => match self.item_error(&item) {
                None => Ok(Ok(AuditLine::Says(item))),
                Some(why) => Ok(Err(why)),
            },
            Err(ReadError::NotUnderstood) => Ok(Err(AuditError::Line(LineError::NotUnderstood))),
            Err(ReadError::OutOfMemory) => Err(NoMemory { back: () }),
        }
    }

    /// Why an item is bad after the lines so far, where it is.
    fn item_error(&self, item: &Item<ScriptEvent>) -> Option<AuditError>
        ensures { (so_far : Account) → RepresentsAccount self.now so_far
            → result ≡ audit_item_error so_far item.now }
    {
        match item {
            Item::Silent => None,
            Item::Cache(_) => self.setup_error(true),
            Item::Handle { cache, .. } => self.setup_error(*cache < self.caches),
            Item::Event(_) => self.missing_claim(),
        }
    }

    /// Why a line that sets the signer up is bad, where it is.
    fn setup_error(&self, there: bool) -> Option<AuditError>
        ensures { (so_far : Account) → RepresentsAccount self.now so_far
            → result ≡ script_error (setup_error (not (is_empty (events_in so_far.items))) there)
            (overdue so_far.unclaimed) }
    {
        match setup_error(self.events > 0, there) {
            Some(why) => Some(AuditError::Line(why)),
            None => self.missing_claim(),
        }
    }

    /// The cause that a line still wants its claim, where one does.
    pub(crate) fn missing_claim(&self) -> Option<AuditError>
        ensures { result ≡ overdue self.now.unclaimed }
    {
        match &self.unclaimed {
            None => None,
            Some(unclaimed) => Some(AuditError::NoClaim {
                line: unclaimed.line,
            }),
        }
    }

    /// What a claim line with this text reads as.
    pub(crate) fn read_claim_line(
        &self,
        alloc: Global,
        text: &[u8],
    ) -> Result<Result<AuditLine, AuditError>, NoMemory<()>>
        ensures { IfOk result (λ reading. (so_far : Account) → RepresentsAccount self.now so_far
            → reading ≡ claim_reading so_far text.now (claim_of text.now)) }
    {
        match read_claimed_reply(alloc, text) {
            Ok(claimed) => match self.claim_error(alloc, &claimed, text)? {
                None => Ok(Ok(AuditLine::Claims(claimed))),
                Some(why) => Ok(Err(why)),
            },
            Err(ReadError::NotUnderstood) => Ok(Err(AuditError::Line(LineError::NotUnderstood))),
            Err(ReadError::OutOfMemory) => Err(NoMemory { back: () }),
        }
    }

    /// Why a claim in these words is bad, where it is.
    fn claim_error(
        &self,
        alloc: Global,
        claimed: &ClaimedReply,
        text: &[u8],
    ) -> Result<Option<AuditError>, NoMemory<()>>
        ensures { IfOk result (λ error. (so_far : Account) → RepresentsAccount self.now so_far
            → error ≡ claim_error so_far (subject_in so_far) claimed.now text.now) }
    {
        match (&self.unclaimed, &self.stage) {
            (
                Some(
                    Unclaimed {
                        subject: Subject::Cache(number),
                        ..
                    },
                ),
                _,
            ) => differs(alloc, Due::Cache(*number), None, text),
            (
                Some(
                    Unclaimed {
                        subject: Subject::Handle(number),
                        ..
                    },
                ),
                _,
            ) => differs(alloc, Due::Handle(*number), None, text),
            (
                Some(
                    Unclaimed {
                        subject: Subject::Event(event),
                        ..
                    },
                ),
                LogStage::Judging(audit),
            ) => event_differs(alloc, audit, event, claimed, text),
            // The first event begins the judging, so no event wants its claim before.
            _ => Ok(Some(AuditError::OutOfPlace)),
        }
    }
}
