//! `signctl script`, line by line: the desk that the cache and handle lines set up, and what is kept
//! of the lines so far.
ghost use Rattle.std.specs.Prelude.{◌≡◌, ◌++◌, ◌<◌, [], false, List, length, OnOk, IfOk, unwrap_or};
ghost use Rattle.line_words.specs.declared.moment.ScriptVersion.TheVariants.{One};
ghost use Rattle.line_words.specs.Words.{with_newline};
ghost use Rattle.sequential_signer.specs.Transcript.{is_out_of_memory};
ghost use Rattle.signctl_format.specs.Lines.{reply_line};
ghost use Rattle.signctl_format.specs.declared.item.Item.TheVariants as item;
ghost use Rattle.signctl_format.specs.ScriptEvents.{ScriptItem};
ghost use Rattle.signctl_format.specs.ScriptSetup.{item_error};
ghost use Rattle.signctl_script.specs.ScriptOutput.{final_lines};
ghost use Rattle.signctl_script.specs.SessionState.{RepresentsItems};
ghost use Rattle.signctl_script.specs.Answering.{CanAnswer, AnswersItem};
ghost use Rattle.signctl_script.specs.declared.session.ScriptLine.{ScriptLine};

use sequential_signer::{Loader, Reply};
use sign_base::NoMemory;
use sign_desk::{AddError, Desk};
use signctl_driver::{LineCommand, end_line};
use signctl_format::{
    Item, LineError, ReadError, ScriptCredential, ScriptEvent, ScriptRule, ScriptVersion,
    is_version_line, push_cache, push_final, push_handle, push_reply, read_line, setup_error,
};
use std::alloc::Global;
use std::marker::Model;

/// A good line of a script.
#[derive(Debug, Drop)]
pub enum ScriptLine {
    /// The first line, where it says that the script is of version 2.
    VersionTwo,
    /// Any other.
    Says(Item<ScriptEvent>),
}

/// What is kept of a script whose lines were good so far.
#[derive(Drop)]
pub struct Session {
    desk: Desk<ScriptCredential, ScriptRule>,
    had_event: bool,
    version: Option<ScriptVersion>,
}

impl Model for Session {
    ghost use Rattle.signctl_script.specs.SessionState.{SessionState};

    ghost Value = { SessionState };

    ghost view = { λ s. record { desk = s.desk; had_event = s.had_event; version = s.version } };
}

impl Session {
    ghost use Rattle.signctl_script.specs.SessionState.{SessionRepresents};

    /// A session before the first line.
    pub fn new(alloc: Global) -> Result<Session, NoMemory<()>>
        ensures { IfOk result (λ s. SessionRepresents s []) }
    {
        let mut desk = Desk::new(alloc);
        if desk.add_rule(ScriptRule::Now).is_err() {
            return Err(NoMemory { back: () });
        }
        if desk.add_rule(ScriptRule::Cred).is_err() {
            return Err(NoMemory { back: () });
        }
        Ok(Session {
            desk,
            had_event: false,
            version: None,
        })
    }

    /// The version in which the next line is read.
    fn script_version(&self) -> ScriptVersion
        ensures { result ≡ unwrap_or self.now.version One }
    {
        self.version.unwrap_or(ScriptVersion::One)
    }

    /// Why an item is bad after the items so far, where it is.
    fn item_error(&self, item: &Item<ScriptEvent>) -> Option<LineError>
        ensures { (items : List ScriptItem) → RepresentsItems self.now items
            → result ≡ item_error items item.now }
    {
        match item {
            Item::Silent | Item::Event(_) => None,
            Item::Cache(_) => setup_error(self.had_event, true),
            Item::Handle { cache, .. } => setup_error(self.had_event, *cache < self.desk.caches()),
        }
    }

    /// Adds a cache, and its line to the text.
    fn answer_cache(&mut self, loader: Loader, text: &mut Vec<u8>) -> Result<(), NoMemory<()>>
        requires { CanAnswer self.old (item.Cache loader) }
        ensures answers { OnOk result (AnswersItem (item.Cache loader)
            (record { session = self.old; text = text.old.items })
            (record { session = self.new; text = text.new.items })) }
        ensures version { self.new.version ≡ self.old.version }
    {
        match self.desk.add_cache(loader) {
            Ok(number) => push_cache(text, u64::from(number))?,
            Err(refusal) => return Err(out_of_memory(refusal)),
        }
        end_line(text)?;
        Ok(())
    }

    /// Adds a handle, and its line to the text.
    fn answer_handle(
        &mut self,
        cache: u32,
        rule: ScriptRule,
        text: &mut Vec<u8>,
    ) -> Result<(), NoMemory<()>>
        requires { CanAnswer self.old (item.Handle cache rule) }
        ensures answers { OnOk result (AnswersItem (item.Handle cache rule)
            (record { session = self.old; text = text.old.items })
            (record { session = self.new; text = text.new.items })) }
        ensures version { self.new.version ≡ self.old.version }
    {
        match self.desk.add_handle(cache, rule.place()) {
            Ok(number) => push_handle(text, u64::from(number))?,
            Err(refusal) => return Err(out_of_memory(refusal)),
        }
        end_line(text)?;
        Ok(())
    }

    /// Steps the desk, and adds the reply's line to the text.
    fn answer_event(&mut self, event: ScriptEvent, text: &mut Vec<u8>) -> Result<(), NoMemory<()>>
        ensures answers { OnOk result (AnswersItem (item.Event event)
            (record { session = self.old; text = text.old.items })
            (record { session = self.new; text = text.new.items })) }
        ensures version { self.new.version ≡ self.old.version }
    {
        let reply = self.desk.step_owned(event.into_event());
        let said = push_answer(text, &reply);
        drop(reply);
        said?;
        self.had_event = true;
        Ok(())
    }

    /// Adds the answer to an item.
    fn answer_item(
        &mut self,
        item: Item<ScriptEvent>,
        text: &mut Vec<u8>,
    ) -> Result<(), NoMemory<()>>
        requires { CanAnswer self.old item }
        ensures answers { OnOk result (AnswersItem item
            (record { session = self.old; text = text.old.items })
            (record { session = self.new; text = text.new.items })) }
        ensures version { self.new.version ≡ self.old.version }
    {
        match item {
            Item::Silent => Ok(()),
            Item::Cache(loader) => self.answer_cache(loader, text),
            Item::Handle { cache, rule } => self.answer_handle(cache, rule, text),
            Item::Event(event) => self.answer_event(event, text),
        }
    }

    /// Adds the lines that say what each cache holds in the end.
    fn push_finals(&self, text: &mut Vec<u8>) -> Result<(), NoMemory<()>>
        ensures { OnOk result ((lines : List ScriptLine) → SessionRepresents self.now lines
            → text.new.items ≡ text.old.items ++ final_lines lines) }
    {
        let version = self.script_version();
        for cache in 0..self.desk.caches() {
            push_final(
                text,
                version,
                u64::from(cache),
                self.desk.cached(cache).copied(),
            )?;
            end_line(text)?;
        }
        Ok(())
    }
}

impl LineCommand for Session {
    ghost use Rattle.signctl_script.specs.ScriptOutput.{script_command};
    ghost use Rattle.signctl_script.specs.SessionState.{SessionRepresents};

    type Item = ScriptLine;

    type Cause = LineError;

    ghost command = { script_command };

    ghost represents = { SessionRepresents };

    fn read(
        &self,
        alloc: Global,
        line: &[u8],
    ) -> Result<Result<ScriptLine, LineError>, NoMemory<()>> {
        if self.version.is_none() && is_version_line(line) {
            return Ok(Ok(ScriptLine::VersionTwo));
        }
        match read_line(alloc, self.script_version(), line) {
            Ok(item) => match self.item_error(&item) {
                None => Ok(Ok(ScriptLine::Says(item))),
                Some(why) => Ok(Err(why)),
            },
            Err(ReadError::NotUnderstood) => Ok(Err(LineError::NotUnderstood)),
            Err(ReadError::OutOfMemory) => Err(NoMemory { back: () }),
        }
    }

    fn answer(
        &mut self,
        _alloc: Global,
        line: ScriptLine,
        text: &mut Vec<u8>,
    ) -> Result<(), NoMemory<()>> {
        match line {
            ScriptLine::VersionTwo => self.version = Some(ScriptVersion::Two),
            ScriptLine::Says(item) => {
                self.answer_item(item, text)?;
                self.version = Some(self.script_version());
            }
        }
        Ok(())
    }

    fn push_cause(cause: LineError, text: &mut Vec<u8>) -> Result<(), NoMemory<()>> {
        Ok(text.extend_from_slice(cause.as_str().as_bytes())?)
    }

    fn cause_line(_cause: &LineError) -> Option<u64> {
        None
    }

    fn close(
        &self,
        _alloc: Global,
        text: &mut Vec<u8>,
    ) -> Result<Result<(), LineError>, NoMemory<()>> {
        self.push_finals(text)?;
        Ok(Ok(()))
    }
}

/// The one refusal that a good line can meet.
fn out_of_memory(refusal: AddError) -> NoMemory<()>
    requires { refusal ≡ AddError.OutOfMemory }
{
    let _ = refusal;
    NoMemory { back: () }
}

/// Adds the line of a reply, unless it says that an allocation failed.
fn push_answer(text: &mut Vec<u8>, reply: &Reply<ScriptCredential>) -> Result<(), NoMemory<()>>
    ensures counts { OnOk result (is_out_of_memory reply.now ≡ false) }
    ensures line { OnOk result (text.new.items ≡ text.old.items ++ with_newline (reply_line reply.now)) }
{
    if reply.is_out_of_memory() {
        return Err(NoMemory { back: () });
    }
    push_reply(text, reply)?;
    end_line(text)?;
    Ok(())
}
