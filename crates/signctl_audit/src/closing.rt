//! The lines that close the output of `audit`.
ghost use Rattle.std.specs.Prelude.{◌≡◌, ◌++◌, ◌<◌, List, OnOk};
ghost use Rattle.sign_audit.specs.Counts.{counts_of};
ghost use Rattle.line_words.specs.Words.{spaced_words};
ghost use Rattle.signctl_format.specs.ScriptSetup.{setup_in};
ghost use Rattle.signctl_audit.specs.Account.{account_of};
ghost use Rattle.signctl_audit.specs.AuditOutput.{closing_lines, legal_line, count_words, count_line};
ghost use Rattle.signctl_audit.specs.SessionState.{SessionRepresents};
ghost use Rattle.signctl_audit.specs.declared.audit_line.AuditLine.{AuditLine};

use crate::audit_session::AuditSession;
use crate::log_stage::LogStage;
use line_words::text::{push, push_number, push_word};
use sign_audit::Counts;
use sign_base::NoMemory;
use signctl_driver::end_line;
use signctl_format::push_cache;

impl AuditSession {
    /// Adds the lines that close the output.
    pub(crate) fn push_closing(&self, text: &mut Vec<u8>) -> Result<(), NoMemory<()>>
        ensures { OnOk result ((lines : List AuditLine) → SessionRepresents self.now lines
            → text.new.items ≡ text.old.items ++ closing_lines (account_of lines)) }
    {
        push_legal(text, self.events)?;
        end_line(text)?;
        for cache in 0..self.caches {
            push_counts(text, cache, &self.counts(cache))?;
            end_line(text)?;
        }
        Ok(())
    }

    /// How often a cache was answered what. Before the first event that is never.
    fn counts(&self, cache: u32) -> Counts
        ensures { (lines : List AuditLine) → SessionRepresents self.now lines → cache < self.now.caches
            → result ≡ counts_of (setup_in (account_of lines).items) (account_of lines).entries cache }
    {
        match &self.stage {
            LogStage::Judging(audit) if cache < audit.desk().caches() => audit.counts(cache),
            _ => Counts {
                asks: 0,
                signs: 0,
                refused: 0,
                cancelled: 0,
                missed: 0,
            },
        }
    }
}

/// Adds the line that says how many events there were.
fn push_legal(text: &mut Vec<u8>, events: u64) -> Result<(), NoMemory<()>>
    ensures { OnOk result (text.new.items ≡ text.old.items ++ legal_line events) }
{
    push(text, b"legal")?;
    push_number(text, events)
}

/// Adds the line that says how often a cache was answered what.
fn push_counts(text: &mut Vec<u8>, cache: u32, counts: &Counts) -> Result<(), NoMemory<()>>
    ensures { OnOk result (text.new.items ≡ text.old.items ++ count_line cache counts.now) }
{
    push_cache(text, u64::from(cache))?;
    push_count(text, b"asks", counts.asks)?;
    push_count(text, b"signs", counts.signs)?;
    push_count(text, b"refused", counts.refused)?;
    push_count(text, b"cancelled", counts.cancelled)?;
    push_count(text, b"missed", counts.missed)
}

fn push_count(text: &mut Vec<u8>, name: &[u8], count: u64) -> Result<(), NoMemory<()>>
    ensures { OnOk result (text.new.items ≡ text.old.items ++ spaced_words (count_words name.now count)) }
{
    push_word(text, name)?;
    push_number(text, count)
}
