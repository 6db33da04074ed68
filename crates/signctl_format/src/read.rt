//! Reading a line: one function for each form, by the name that begins it.
//!
//! The forms that most lines have are inlined: each call would copy the item, which has room for the largest
//! event. What stands in many forms, and the forms that few lines have, are calls, since the compiler drops
//! the hint from a function that has grown large, and says nothing.
ghost use Rattle.std.specs.Prelude.{◌≡◌, IsTrue, false};
ghost use Rattle.line_words.specs.Steps.{first_word};
ghost use Rattle.line_words.specs.Readers.{words_after, Reads, Gives, NeedsMemory};
ghost use Rattle.signctl_format.specs.declared.item.Item.TheVariants as item;
ghost use Rattle.signctl_format.specs.ScriptEvents.{plain_event};
ghost use Rattle.signctl_format.specs.Reading.{rule_in, call_at, credential_in, chain_form, cache_form};
ghost use Rattle.signctl_format.specs.Reading.{handle_form, begin_form, poll_form, found_form, missing_form};
ghost use Rattle.signctl_format.specs.Reading.{failed_form, accept_form, reject_form, cancel_form, item_form};
ghost use Rattle.signctl_format.specs.Reading.{item_of};
ghost use Rattle.signctl_format.specs.Grammar.{is_version_line};
ghost use Rattle.signctl_format.specs.Carrying.{names_head, CarriesHead};

use crate::{ScriptCredential, ScriptEvent, ScriptRule};
use line_words::head::parse_head;
use line_words::moment::{parse_duration, parse_moment};
use line_words::word::{
    at_end_of_line, is_silent, number_at, split_word, u32_at, word_at, word_is,
};
use line_words::{NotUnderstood, ReadError, ScriptVersion};
use sequential_signer::{Answer, Event, Loader, Verdict};
use sign_base::CallId;
use std::alloc::Global;

/// A line of a script.
type Item = crate::Item<ScriptEvent>;

/// Whether a script that begins with this line, without its newline, is of version 2.
pub fn is_version_line(line: &[u8]) -> bool
    ensures { result ≡ is_version_line line.now }
{
    word_is(line, b"signctl 2")
}

/// The item that a line without its newline spells in a script of this version.
///
/// Errors: `NotUnderstood` where it spells none, `OutOfMemory`. Nothing of the line is copied but what the
/// item keeps, so only a line that carries a head, as those of `begin` and `accept` do, can run out of
/// memory.
#[inline(always)]
#[tactic(auto, unfolding(crate::specs::Reading::item_of, crate::specs::Reading::words_say))]
pub fn read_line(alloc: Global, version: ScriptVersion, line: &[u8]) -> Result<Item, ReadError>
    ensures item { Gives (λ i. i) result (item_of version line.now) }
    ensures memory { NeedsMemory result (CarriesHead line.now) }
{
    if is_silent(line) {
        return Ok(Item::Silent);
    }
    let (name, rest) = split_word(line);
    parse_form(alloc, version, name, rest)
}

/// The item that a line without its newline spells that carries no head: so it takes no memory.
#[inline(always)]
#[tactic(auto, unfolding(crate::specs::Reading::item_of, crate::specs::Reading::words_say))]
pub fn read_line_with_no_head(version: ScriptVersion, line: &[u8]) -> Result<Item, NotUnderstood>
    requires { CarriesHead line.now → ⊥ }
    ensures { Reads (λ i. i) result (item_of version line.now) }
{
    if is_silent(line) {
        return Ok(Item::Silent);
    }
    let (name, rest) = split_word(line);
    parse_form_with_no_head(version, name, rest)
}

#[inline(always)]
#[tactic(auto, unfolding(crate::specs::Reading::item_form))]
fn parse_form(
    alloc: Global,
    version: ScriptVersion,
    name: &[u8],
    rest: &[u8],
) -> Result<Item, ReadError>
    ensures item { Gives (λ i. i) result (item_form version name.now (words_after rest.now)) }
    ensures memory { NeedsMemory result (IsTrue (names_head name.now)) }
{
    if word_is(name, b"begin") {
        parse_begin(alloc, version, rest)
    } else if word_is(name, b"accept") {
        parse_accept(alloc, rest)
    } else {
        Ok(parse_form_with_no_head(version, name, rest)?)
    }
}

/// The forms that carry no head take no memory.
#[inline(always)]
#[tactic(auto, unfolding(crate::specs::Reading::item_form))]
fn parse_form_with_no_head(
    version: ScriptVersion,
    name: &[u8],
    rest: &[u8],
) -> Result<Item, NotUnderstood>
    requires { names_head name.now ≡ false }
    ensures { Reads (λ i. i) result (item_form version name.now (words_after rest.now)) }
{
    if word_is(name, b"poll") {
        parse_poll(version, rest)
    } else if word_is(name, b"found") {
        parse_found(version, rest)
    } else if word_is(name, b"missing") {
        parse_missing(version, rest)
    } else if word_is(name, b"failed") {
        parse_failed(version, rest)
    } else if word_is(name, b"reject") {
        parse_reject(rest)
    } else if word_is(name, b"cancel") {
        parse_cancel(rest)
    } else if word_is(name, b"cache") {
        parse_cache(rest)
    } else if word_is(name, b"handle") {
        parse_handle(rest)
    } else {
        Err(NotUnderstood)
    }
}

#[tactic(auto, unfolding(crate::specs::Reading::cache_form))]
fn parse_cache(rest: &[u8]) -> Result<Item, NotUnderstood>
    ensures { Reads (λ i. i) result (cache_form (words_after rest.now)) }
{
    let (kind, rest) = word_at(rest)?;
    if word_is(kind, b"single") {
        at_end_of_line(Item::Cache(Loader::Single), rest)
    } else if word_is(kind, b"chain") {
        parse_chain(rest)
    } else {
        Err(NotUnderstood)
    }
}

#[tactic(auto, unfolding(crate::specs::Reading::chain_form))]
fn parse_chain(rest: &[u8]) -> Result<Item, NotUnderstood>
    ensures { Reads (λ i. i) result (chain_form (words_after rest.now)) }
{
    let (providers, rest) = u32_at(rest)?;
    at_end_of_line(Item::Cache(Loader::Chain(providers)), rest)
}

#[tactic(auto, unfolding(crate::specs::Reading::handle_form))]
fn parse_handle(rest: &[u8]) -> Result<Item, NotUnderstood>
    ensures { Reads (λ i. i) result (handle_form (words_after rest.now)) }
{
    let (cache, rest) = u32_at(rest)?;
    let (word, rest) = word_at(rest)?;
    let rule = parse_rule(word)?;
    at_end_of_line(Item::Handle { cache, rule }, rest)
}

#[inline(always)]
#[tactic(auto, unfolding(crate::specs::Reading::begin_form))]
fn parse_begin(alloc: Global, version: ScriptVersion, rest: &[u8]) -> Result<Item, ReadError>
    ensures { Gives (λ i. i) result (begin_form version (words_after rest.now)) }
{
    let (call, rest) = call_at(rest)?;
    let (word, rest) = word_at(rest)?;
    let expires_in = parse_duration(version, word)?;
    let head = parse_head(alloc, rest)?;
    Ok(event_item(Event::Begin {
        call,
        head,
        expires_in,
    }))
}

#[inline(always)]
#[tactic(auto, unfolding(crate::specs::Reading::poll_form, line_words::specs::Moments::moment_at))]
fn parse_poll(version: ScriptVersion, rest: &[u8]) -> Result<Item, NotUnderstood>
    ensures { Reads (λ i. i) result (poll_form version (words_after rest.now)) }
{
    let (call, rest) = call_at(rest)?;
    let (word, rest) = word_at(rest)?;
    let now = parse_moment(version, word)?;
    at_end_of_line(event_item(Event::Poll { call, now }), rest)
}

#[inline(always)]
#[tactic(auto, unfolding(crate::specs::Reading::found_form, line_words::specs::Moments::moment_at))]
fn parse_found(version: ScriptVersion, rest: &[u8]) -> Result<Item, NotUnderstood>
    ensures { Reads (λ i. i) result (found_form version (words_after rest.now)) }
{
    let (call, rest) = call_at(rest)?;
    let (word, rest) = word_at(rest)?;
    let now = parse_moment(version, word)?;
    let answer = Answer::Found(parse_credential(version, rest)?);
    Ok(event_item(Event::Provided { call, now, answer }))
}

#[tactic(auto, unfolding(crate::specs::Reading::missing_form, line_words::specs::Moments::moment_at))]
fn parse_missing(version: ScriptVersion, rest: &[u8]) -> Result<Item, NotUnderstood>
    ensures { Reads (λ i. i) result (missing_form version (words_after rest.now)) }
{
    let (call, rest) = call_at(rest)?;
    let (word, rest) = word_at(rest)?;
    let now = parse_moment(version, word)?;
    let answer = Answer::Missing;
    at_end_of_line(event_item(Event::Provided { call, now, answer }), rest)
}

#[tactic(auto, unfolding(crate::specs::Reading::failed_form, line_words::specs::Moments::moment_at))]
fn parse_failed(version: ScriptVersion, rest: &[u8]) -> Result<Item, NotUnderstood>
    ensures { Reads (λ i. i) result (failed_form version (words_after rest.now)) }
{
    let (call, rest) = call_at(rest)?;
    let (word, rest) = word_at(rest)?;
    let now = parse_moment(version, word)?;
    let (error, rest) = number_at(u64::MAX, rest)?;
    let answer = Answer::Failed(error);
    at_end_of_line(event_item(Event::Provided { call, now, answer }), rest)
}

#[inline(always)]
#[tactic(auto, unfolding(crate::specs::Reading::accept_form))]
fn parse_accept(alloc: Global, rest: &[u8]) -> Result<Item, ReadError>
    ensures { Gives (λ i. i) result (accept_form (words_after rest.now)) }
{
    let (call, rest) = call_at(rest)?;
    let answer = Verdict::Accepted(parse_head(alloc, rest)?);
    Ok(event_item(Event::Signed { call, answer }))
}

#[tactic(auto, unfolding(crate::specs::Reading::reject_form))]
fn parse_reject(rest: &[u8]) -> Result<Item, NotUnderstood>
    ensures { Reads (λ i. i) result (reject_form (words_after rest.now)) }
{
    let (call, rest) = call_at(rest)?;
    let (error, rest) = number_at(u64::MAX, rest)?;
    let answer = Verdict::Failed(error);
    at_end_of_line(event_item(Event::Signed { call, answer }), rest)
}

#[inline(always)]
#[tactic(auto, unfolding(crate::specs::Reading::cancel_form))]
fn parse_cancel(rest: &[u8]) -> Result<Item, NotUnderstood>
    ensures { Reads (λ i. i) result (cancel_form (words_after rest.now)) }
{
    let (call, rest) = call_at(rest)?;
    at_end_of_line(event_item(Event::Cancel { call }), rest)
}

#[inline(always)]
fn event_item(event: Event<ScriptCredential>) -> Item
    ensures { result ≡ item.Event (plain_event event) }
{
    Item::Event(ScriptEvent::new(event))
}

fn parse_rule(word: &[u8]) -> Result<ScriptRule, NotUnderstood>
    ensures { Reads (λ r. r) result (rule_in word.now) }
{
    if word_is(word, b"now") {
        Ok(ScriptRule::Now)
    } else if word_is(word, b"cred") {
        Ok(ScriptRule::Cred)
    } else {
        Err(NotUnderstood)
    }
}

/// A call, in the next two words.
#[tactic(auto, unfolding(crate::specs::Reading::call_at))]
pub fn call_at(rest: &[u8]) -> Result<(CallId, &[u8]), NotUnderstood>
    ensures { Reads (λ x. (x.0, words_after x.1.now)) result (call_at (words_after rest.now)) }
{
    let (handle, rest) = u32_at(rest)?;
    let (number, rest) = number_at(u64::MAX, rest)?;
    Ok((CallId { handle, number }, rest))
}

/// The credential that all of these words spell.
#[inline(always)]
#[tactic(auto, unfolding(crate::specs::Reading::credential_in, line_words::specs::Moments::moment_at))]
pub fn parse_credential(
    version: ScriptVersion,
    rest: &[u8],
) -> Result<ScriptCredential, NotUnderstood>
    ensures { Reads (λ c. c) result (credential_in version (words_after rest.now)) }
{
    let (generation, rest) = number_at(u64::MAX, rest)?;
    let (word, rest) = word_at(rest)?;
    let fresh = parse_moment(version, word)?;
    let (word, rest) = word_at(rest)?;
    let expires = parse_moment(version, word)?;
    let (word, rest) = word_at(rest)?;
    let required = parse_moment(version, word)?;
    let credential = ScriptCredential {
        generation,
        fresh,
        expires,
        required,
    };
    at_end_of_line(credential, rest)
}
