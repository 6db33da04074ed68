//! `signctl audit` as a command over lines, and what it keeps of them.
ghost use Rattle.std.specs.Prelude.{◌≡◌, ◌+◌, ◌<◌, [], Some, length, OnOk, IfOk, unwrap_or};
ghost use Rattle.line_words.specs.declared.moment.ScriptVersion.TheVariants.{One};
ghost use Rattle.signctl_audit.specs.SessionState.{SessionRepresents};

use crate::audit_error::{AuditError, push_audit_error};
use crate::audit_line::{AuditLine, Unclaimed};
use crate::log_stage::LogStage;
use crate::read_claim::claim_text;
use sign_base::NoMemory;
use sign_desk::Desk;
use signctl_driver::LineCommand;
use signctl_format::{ScriptCredential, ScriptRule, ScriptVersion, is_version_line};
use std::alloc::Global;
use std::marker::Model;

/// What is kept of the lines of `audit`, which were good so far.
#[derive(Drop)]
pub struct AuditSession {
    pub(crate) stage: LogStage,
    pub(crate) lines: u64,
    pub(crate) caches: u32,
    pub(crate) events: u64,
    pub(crate) version: Option<ScriptVersion>,
    pub(crate) unclaimed: Option<Unclaimed>,
}

impl Model for AuditSession {
    ghost use Rattle.signctl_audit.specs.SessionState.{SessionState};

    ghost Value = { SessionState };

    ghost view = { λ s. record {
      stage = s.stage;
      lines = s.lines;
      caches = s.caches;
      events = s.events;
      version = s.version;
      unclaimed = s.unclaimed;
    } };
}

impl AuditSession {
    /// A session before the first line.
    pub fn new(alloc: Global) -> Result<AuditSession, NoMemory<()>>
        ensures { IfOk result (λ s. SessionRepresents s []) }
    {
        let mut desk = Desk::new(alloc);
        if desk.add_rule(ScriptRule::Now).is_err() {
            return Err(NoMemory { back: () });
        }
        if desk.add_rule(ScriptRule::Cred).is_err() {
            return Err(NoMemory { back: () });
        }
        Ok(AuditSession {
            stage: LogStage::Setup(desk),
            lines: 0,
            caches: 0,
            events: 0,
            version: None,
            unclaimed: None,
        })
    }

    /// The version in which the next line is read.
    pub(crate) fn script_version(&self) -> ScriptVersion
        ensures { result ≡ unwrap_or self.now.version One }
    {
        self.version.unwrap_or(ScriptVersion::One)
    }

    /// Counts the line, after which the input has this version.
    fn count_line(&mut self, version: ScriptVersion)
        requires { self.old.lines < 18446744073709551615 }
        ensures { self.new ≡ record self.old { lines = self.old.lines + 1; version = Some version } }
    {
        self.lines += 1;
        self.version = Some(version);
    }
}

impl LineCommand for AuditSession {
    ghost use Rattle.signctl_audit.specs.AuditOutput.{audit_command};
    ghost use Rattle.signctl_audit.specs.SessionState.{SessionRepresents};

    type Item = AuditLine;

    type Cause = AuditError;

    ghost command = { audit_command };

    ghost represents = { SessionRepresents };

    fn read(
        &self,
        alloc: Global,
        line: &[u8],
    ) -> Result<Result<AuditLine, AuditError>, NoMemory<()>> {
        if self.version.is_none() && is_version_line(line) {
            return Ok(Ok(AuditLine::VersionTwo));
        }
        match claim_text(line) {
            None => self.read_script_line(alloc, line),
            Some(text) => self.read_claim_line(alloc, text),
        }
    }

    fn answer(
        &mut self,
        _alloc: Global,
        line: AuditLine,
        _text: &mut Vec<u8>,
    ) -> Result<(), NoMemory<()>> {
        match line {
            AuditLine::VersionTwo => {
                self.count_line(ScriptVersion::Two);
                Ok(())
            }
            AuditLine::Says(item) => {
                self.take_item(item)?;
                self.count_line(self.script_version());
                Ok(())
            }
            AuditLine::Claims(claimed) => {
                self.take_claim(&claimed)?;
                self.count_line(self.script_version());
                Ok(())
            }
        }
    }

    fn push_cause(cause: AuditError, text: &mut Vec<u8>) -> Result<(), NoMemory<()>> {
        push_audit_error(text, &cause)
    }

    fn cause_line(cause: &AuditError) -> Option<u64> {
        match cause {
            AuditError::NoClaim { line } => Some(*line),
            _ => None,
        }
    }

    fn close(
        &self,
        _alloc: Global,
        text: &mut Vec<u8>,
    ) -> Result<Result<(), AuditError>, NoMemory<()>> {
        match self.missing_claim() {
            Some(why) => Ok(Err(why)),
            None => {
                self.push_closing(text)?;
                Ok(Ok(()))
            }
        }
    }
}
