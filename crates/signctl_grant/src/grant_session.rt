//! `signctl grant`, line by line: the desk that the cache and handle lines set up, and what is kept
//! of the lines so far.
ghost use Rattle.std.specs.Prelude.{◌≡◌, ◌++◌, ◌<◌, [], List, length, OnOk, IfOk};
ghost use Rattle.sequential_signer.specs.GrantTranscript.{as_reply};
ghost use Rattle.sequential_signer.specs.Transcript.{is_out_of_memory};
ghost use Rattle.signctl_format.specs.declared.item.Item.TheVariants as item;
ghost use Rattle.signctl_format.specs.ScriptSetup.{item_error};
ghost use Rattle.signctl_grant.specs.GrantEvents.{GrantItem};
ghost use Rattle.signctl_grant.specs.GrantOutput.{final_lines};
ghost use Rattle.signctl_grant.specs.GrantAnswering.{CanAnswer, AnswersItem};

use crate::{GrantScriptEvent, push_grant_reply, read_grant_line};
use grant_desk::{AddError, GrantDesk};
use sequential_signer::{GrantReply, Loader};
use sign_base::NoMemory;
use signctl_driver::{LineCommand, end_line};
use signctl_format::{
    Item, LineError, ScriptCredential, ScriptRule, ScriptVersion, push_cache, push_final,
    push_handle, setup_error,
};
use std::alloc::Global;
use std::marker::Model;

/// What is kept of the lines of `grant`, which were good so far.
#[derive(Drop)]
pub struct GrantSession {
    desk: GrantDesk<ScriptCredential, ScriptRule>,
    had_event: bool,
}

impl Model for GrantSession {
    ghost use Rattle.signctl_grant.specs.GrantSessionState.{GrantSessionState};

    ghost Value = { GrantSessionState };

    ghost view = { λ s. record { desk = s.desk; had_event = s.had_event } };
}

impl GrantSession {
    ghost use Rattle.signctl_grant.specs.GrantSessionState.{GrantSessionRepresents};

    /// A session before the first line.
    pub fn new(alloc: Global) -> Result<GrantSession, NoMemory<()>>
        ensures { IfOk result (λ s. GrantSessionRepresents s []) }
    {
        let mut desk = GrantDesk::new(alloc);
        if desk.add_rule(ScriptRule::Now).is_err() {
            return Err(NoMemory { back: () });
        }
        if desk.add_rule(ScriptRule::Cred).is_err() {
            return Err(NoMemory { back: () });
        }
        Ok(GrantSession {
            desk,
            had_event: false,
        })
    }

    /// Why an item is bad after the items so far, where it is.
    fn item_error(&self, item: &Item<GrantScriptEvent>) -> Option<LineError>
        ensures { (items : List GrantItem) → GrantSessionRepresents self.now items
            → result ≡ item_error items item.now }
    {
        match item {
            Item::Silent | Item::Event(_) => None,
            Item::Cache(_) => setup_error(self.had_event, true),
            Item::Handle { cache, .. } => setup_error(self.had_event, *cache < self.desk.caches()),
        }
    }

    /// Adds a cache, and its line to the text.
    fn answer_cache(&mut self, loader: Loader, text: &mut Vec<u8>) -> Result<(), NoMemory<()>>
        requires { CanAnswer self.old (item.Cache loader) }
        ensures { OnOk result (AnswersItem (item.Cache loader)
            (record { session = self.old; text = text.old.items })
            (record { session = self.new; text = text.new.items })) }
    {
        match self.desk.add_cache(loader) {
            Ok(number) => push_cache(text, u64::from(number))?,
            Err(refusal) => return Err(out_of_memory(refusal)),
        }
        end_line(text)?;
        Ok(())
    }

    /// Adds a handle, and its line to the text.
    fn answer_handle(
        &mut self,
        cache: u32,
        rule: ScriptRule,
        text: &mut Vec<u8>,
    ) -> Result<(), NoMemory<()>>
        requires { CanAnswer self.old (item.Handle cache rule) }
        ensures { OnOk result (AnswersItem (item.Handle cache rule)
            (record { session = self.old; text = text.old.items })
            (record { session = self.new; text = text.new.items })) }
    {
        match self.desk.add_handle(cache, rule.place()) {
            Ok(number) => push_handle(text, u64::from(number))?,
            Err(refusal) => return Err(out_of_memory(refusal)),
        }
        end_line(text)?;
        Ok(())
    }

    /// Steps the desk, and adds the reply's line to the text.
    fn answer_event(
        &mut self,
        event: &GrantScriptEvent,
        text: &mut Vec<u8>,
    ) -> Result<(), NoMemory<()>>
        ensures { OnOk result (AnswersItem (item.Event event.now)
            (record { session = self.old; text = text.old.items })
            (record { session = self.new; text = text.new.items })) }
    {
        let reply = self.desk.step(event.as_event());
        if is_out_of_memory(&reply) {
            return Err(NoMemory { back: () });
        }
        self.had_event = true;
        push_grant_reply(text, &reply)?;
        end_line(text)?;
        Ok(())
    }

    /// Adds the lines that say what each cache holds in the end.
    fn push_finals(&self, text: &mut Vec<u8>) -> Result<(), NoMemory<()>>
        ensures { OnOk result ((items : List GrantItem) → GrantSessionRepresents self.now items
            → text.new.items ≡ text.old.items ++ final_lines items) }
    {
        for cache in 0..self.desk.caches() {
            push_final(
                text,
                ScriptVersion::One,
                u64::from(cache),
                self.desk.cached(cache).copied(),
            )?;
            end_line(text)?;
        }
        Ok(())
    }
}

impl LineCommand for GrantSession {
    ghost use Rattle.signctl_grant.specs.GrantOutput.{grant_command};
    ghost use Rattle.signctl_grant.specs.GrantSessionState.{GrantSessionRepresents};

    type Item = Item<GrantScriptEvent>;

    type Cause = LineError;

    ghost command = { grant_command };

    ghost represents = { GrantSessionRepresents };

    fn read(
        &self,
        _alloc: Global,
        line: &[u8],
    ) -> Result<Result<Item<GrantScriptEvent>, LineError>, NoMemory<()>> {
        let Some(item) = read_grant_line(line) else {
            return Ok(Err(LineError::NotUnderstood));
        };
        match self.item_error(&item) {
            None => Ok(Ok(item)),
            Some(why) => Ok(Err(why)),
        }
    }

    fn answer(
        &mut self,
        _alloc: Global,
        item: Item<GrantScriptEvent>,
        text: &mut Vec<u8>,
    ) -> Result<(), NoMemory<()>> {
        match item {
            Item::Silent => Ok(()),
            Item::Cache(loader) => self.answer_cache(loader, text),
            Item::Handle { cache, rule } => self.answer_handle(cache, rule, text),
            Item::Event(event) => self.answer_event(&event, text),
        }
    }

    fn push_cause(cause: LineError, text: &mut Vec<u8>) -> Result<(), NoMemory<()>> {
        Ok(text.extend_from_slice(cause.as_str().as_bytes())?)
    }

    fn cause_line(_cause: &LineError) -> Option<u64> {
        None
    }

    fn close(
        &self,
        _alloc: Global,
        text: &mut Vec<u8>,
    ) -> Result<Result<(), LineError>, NoMemory<()>> {
        self.push_finals(text)?;
        Ok(Ok(()))
    }
}

/// The one refusal that a good line can meet.
fn out_of_memory(refusal: AddError) -> NoMemory<()>
    requires { refusal ≡ AddError.OutOfMemory }
{
    let _ = refusal;
    NoMemory { back: () }
}

/// Whether a reply says that an allocation failed.
fn is_out_of_memory(reply: &GrantReply<ScriptCredential>) -> bool
    ensures { result ≡ is_out_of_memory (as_reply reply.now) }
{
    matches!(reply, GrantReply::OutOfMemory)
}
