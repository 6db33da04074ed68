//! A script and what it is answered, as a log for an audit: behind each line stands its answer as a claim.
use crate::run::written;
use std::alloc::{AllocError, Global};

/// No claim has this number.
const NO_CLAIM: u64 = u64::MAX;

/// A log, in which one claim may differ from what the script was answered.
#[derive(Drop)]
struct Log {
    alloc: Global,
    text: String,
    lines: u64,
    claims: u64,
    /// How many of the claims are of events.
    events: u64,
    /// What an audit answers first.
    verdict: String,
    exit: &'static str,
}

/// How many claims a script has, up to its first bad line. None where an audit does not find them legal, or
/// where it finds them so, or blames another line, once one of them is changed.
pub fn audited_claims(
    alloc: Global,
    script: &str,
    answers: &str,
) -> Result<Option<u64>, AllocError> {
    let log = log_of(alloc, script, answers, NO_CLAIM)?;
    if !log.is_audited() {
        return Ok(None);
    }
    for changed in 0..log.claims {
        if !log_of(alloc, script, answers, changed)?.is_audited() {
            return Ok(None);
        }
    }
    Ok(Some(log.claims))
}

/// The log of a script up to its first bad line, in which the claim of this number is changed.
fn log_of(alloc: Global, script: &str, answers: &str, changed: u64) -> Result<Log, AllocError> {
    let mut log = Log::new(alloc);
    let mut answers = answers.split('\n');
    for line in script.split_terminator('\n') {
        if log.is_silent(line) {
            log.push(line)?;
            continue;
        }
        match answers.next() {
            Some(answer) if !answer.starts_with("line ") => {
                log.push(line)?;
                log.claim(answer, changed)?;
            }
            _ => break,
        }
    }
    log.close()?;
    Ok(log)
}

impl Log {
    fn new(alloc: Global) -> Log {
        Log {
            alloc,
            text: String::new(alloc),
            lines: 0,
            claims: 0,
            events: 0,
            verdict: String::new(alloc),
            exit: "= 0\n",
        }
    }

    /// Whether the next line of a script is answered by nothing.
    fn is_silent(&self, line: &str) -> bool {
        line.is_empty() || line.starts_with('#') || (self.lines == 0 && line == "signctl 2")
    }

    fn push(&mut self, line: &str) -> Result<(), AllocError> {
        self.lines = self.lines.saturating_add(1);
        self.text.push_str(line)?;
        self.text.push('\n')
    }

    /// Claims this answer to the line before, or another one where this is the claim to be changed.
    fn claim(&mut self, answer: &str, changed: u64) -> Result<(), AllocError> {
        self.text.push_str("= ")?;
        if self.claims == changed {
            self.push(other_answer(answer))?;
            self.blame(answer)?;
        } else {
            self.push(answer)?;
        }
        self.claims = self.claims.saturating_add(1);
        if !answer.starts_with("cache ") && !answer.starts_with("handle ") {
            self.events = self.events.saturating_add(1);
        }
        Ok(())
    }

    /// The last line claims another answer than this one. A call that has to wait may wait for another one,
    /// which is named behind it.
    fn blame(&mut self, answer: &str) -> Result<(), AllocError> {
        let end = if answer == "pending" { "" } else { "\n" };
        let line = self.lines;
        self.verdict = format!(in self.alloc; "line {line}: due {answer}{end}")?;
        self.exit = "= 3\n";
        Ok(())
    }

    /// Ends the log, whose claims are legal where none was changed.
    fn close(&mut self) -> Result<(), AllocError> {
        if self.verdict.is_empty() {
            let events = self.events;
            self.verdict = format!(in self.alloc; "legal {events}\n")?;
        }
        Ok(())
    }

    /// Whether an audit of it answers so.
    fn is_audited(&self) -> bool {
        match written(self.alloc, "signctl|audit", self.text.as_bytes(), 4_096) {
            Some(bytes) => {
                bytes.starts_with(self.verdict.as_bytes()) && bytes.ends_with(self.exit.as_bytes())
            }
            None => false,
        }
    }
}

/// An answer that is not this one.
fn other_answer(answer: &str) -> &'static str {
    if answer == "pending" {
        "not now"
    } else {
        "pending"
    }
}
