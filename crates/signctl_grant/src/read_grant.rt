//! Reading a line of `grant`: one function for each form of a granter's own. The others are a script's.
ghost use Rattle.std.specs.Prelude.{◌≡◌};
ghost use Rattle.line_words.specs.Readers.{words_after, Reads};
ghost use Rattle.signctl_grant.specs.GrantEvents.{plain_grant_event};
ghost use Rattle.signctl_grant.specs.GrantGrammar.{failure_moment, as_grant};
ghost use Rattle.signctl_grant.specs.GrantReading.{begin_form, made_form, fail_form, grant_item_of};

use crate::GrantScriptEvent;
use line_words::NotUnderstood;
use line_words::moment::{parse_duration, parse_moment};
use line_words::word::{at_end_of_line, number_at, split_word, word_at};
use sequential_signer::{Event, GrantEvent, Made};
use sign_base::Timestamp;
use signctl_format::read::{call_at, parse_credential, read_line_with_no_head};
use signctl_format::{Item, ScriptCredential, ScriptEvent, ScriptVersion};

/// The item that a line without its newline spells, None where it spells none.
///
/// No line carries a head, so reading takes no memory.
pub fn read_grant_line(line: &[u8]) -> Option<Item<GrantScriptEvent>>
    ensures { result ≡ grant_item_of line.now }
{
    match parse_item(line) {
        Ok(item) => Some(item),
        Err(NotUnderstood) => None,
    }
}

#[tactic(auto, unfolding(crate::specs::GrantReading::grant_item_of, crate::specs::GrantReading::grant_words_say, crate::specs::GrantReading::grant_form))]
fn parse_item(line: &[u8]) -> Result<Item<GrantScriptEvent>, NotUnderstood>
    ensures { Reads (λ i. i) result (grant_item_of line.now) }
{
    let (name, rest) = split_word(line);
    if name == b"begin".as_slice() {
        parse_begin(rest)
    } else if name == b"made".as_slice() {
        parse_made(rest)
    } else if name == b"fail".as_slice() {
        parse_fail(rest)
    } else if name == b"accept".as_slice() {
        Err(NotUnderstood)
    } else {
        as_grant(read_line_with_no_head(ScriptVersion::One, line)?)
    }
}

#[tactic(auto, unfolding(crate::specs::GrantReading::begin_form))]
fn parse_begin(rest: &[u8]) -> Result<Item<GrantScriptEvent>, NotUnderstood>
    ensures { Reads (λ i. i) result (begin_form (words_after rest.now)) }
{
    let (call, rest) = call_at(rest)?;
    let (word, rest) = word_at(rest)?;
    let expires_in = parse_duration(ScriptVersion::One, word)?;
    at_end_of_line(event_item(GrantEvent::Begin { call, expires_in }), rest)
}

#[tactic(auto, unfolding(crate::specs::GrantReading::made_form, line_words::specs::Moments::moment_at))]
fn parse_made(rest: &[u8]) -> Result<Item<GrantScriptEvent>, NotUnderstood>
    ensures { Reads (λ i. i) result (made_form (words_after rest.now)) }
{
    let (call, rest) = call_at(rest)?;
    let (word, rest) = word_at(rest)?;
    let now = parse_moment(ScriptVersion::One, word)?;
    let answer = Made::Made(parse_credential(ScriptVersion::One, rest)?);
    Ok(event_item(GrantEvent::Granted { call, now, answer }))
}

#[tactic(auto, unfolding(crate::specs::GrantReading::fail_form))]
fn parse_fail(rest: &[u8]) -> Result<Item<GrantScriptEvent>, NotUnderstood>
    ensures { Reads (λ i. i) result (fail_form (words_after rest.now)) }
{
    let (call, rest) = call_at(rest)?;
    let (error, rest) = number_at(u64::MAX, rest)?;
    let now = failure_moment();
    let answer = Made::Failed(error);
    at_end_of_line(event_item(GrantEvent::Granted { call, now, answer }), rest)
}

/// The moment of a granter's failure, whose line names none.
fn failure_moment() -> Timestamp
    ensures { result ≡ failure_moment }
{
    match Timestamp::from_nanos(0) {
        Some(moment) => moment,
        None => unreachable!(),
    }
}

/// What an item of a script is to a granter.
fn as_grant(item: Item<ScriptEvent>) -> Result<Item<GrantScriptEvent>, NotUnderstood>
    ensures { Reads (λ i. i) result (as_grant item) }
{
    match item {
        Item::Silent => Ok(Item::Silent),
        Item::Cache(loader) => Ok(Item::Cache(loader)),
        Item::Handle { cache, rule } => Ok(Item::Handle { cache, rule }),
        Item::Event(event) => event_as_grant(event),
    }
}

fn event_as_grant(event: ScriptEvent) -> Result<Item<GrantScriptEvent>, NotUnderstood>
    ensures { Reads (λ i. i) result (as_grant (Item.Event event)) }
{
    let event = match event.into_event() {
        Event::Poll { call, now } => GrantEvent::Poll { call, now },
        Event::Provided { call, now, answer } => GrantEvent::Provided { call, now, answer },
        Event::Cancel { call } => GrantEvent::Cancel { call },
        Event::Begin { .. } | Event::Signed { .. } => return Err(NotUnderstood),
    };
    Ok(event_item(event))
}

fn event_item(event: GrantEvent<ScriptCredential>) -> Item<GrantScriptEvent>
    ensures { result ≡ Item.Event (plain_grant_event event) }
{
    Item::Event(GrantScriptEvent::new(event))
}
