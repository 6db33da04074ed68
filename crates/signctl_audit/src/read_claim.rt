//! Reading a claim: one function for each form, by the word that begins it.
ghost use Rattle.std.specs.Prelude.{◌≡◌, IsTrue, Some, None, MatchOption};
ghost use Rattle.std.specs.Str.{bytes_eq};
ghost use Rattle.line_words.specs.Readers.{words_after, Reads, Gives};
ghost use Rattle.signctl_audit.specs.ClaimReading.{claim_text, woken_in, wake_in, loader_at};
ghost use Rattle.signctl_audit.specs.ClaimReading.{service_at, why_at, cache_claim, handle_claim};
ghost use Rattle.signctl_audit.specs.ClaimReading.{ask_claim, sign_claim, refused_claim, done_claim};
ghost use Rattle.signctl_audit.specs.ClaimReading.{cancelled_claim, claim_form, claim_words_say, claim_of};

use crate::claimed_reply::{ClaimedReply, ClaimedWhy};
use line_words::NotUnderstood;
use line_words::head::parse_head;
use line_words::word::{at_end_of_line, next_word, number_at, split_word, u32_at, word_at};
use sign_base::CallId;
use signctl_format::ReadError;
use signctl_format::read::call_at;
use std::alloc::Global;

/// What stands after the mark of a claim line, where a line is one.
pub fn claim_text(line: &[u8]) -> Option<&[u8]>
    ensures { MatchOption result (claim_text line.now ≡ None) (λ text. claim_text line.now ≡ Some text.now) }
{
    match line {
        [b'=', b' ', text @ ..] => Some(text),
        _ => None,
    }
}

/// The claim that a text spells.
///
/// Errors: `NotUnderstood` where it spells none, `OutOfMemory`, which only a claimed head can meet.
#[tactic(auto, unfolding(crate::specs::ClaimReading::claim_of, crate::specs::ClaimReading::claim_words_say))]
pub fn read_claimed_reply(alloc: Global, text: &[u8]) -> Result<ClaimedReply, ReadError>
    ensures { Gives (λ c. c) result (claim_of text.now) }
{
    if text == b"begun".as_slice() {
        return Ok(ClaimedReply::Begun);
    }
    if text == b"pending".as_slice() {
        return Ok(ClaimedReply::Pending);
    }
    if text == b"not now".as_slice() {
        return Ok(ClaimedReply::NotNow);
    }
    if text == b"out of memory".as_slice() {
        return Ok(ClaimedReply::OutOfMemory);
    }
    let (name, rest) = split_word(text);
    parse_form(alloc, name, rest)
}

#[tactic(auto, unfolding(crate::specs::ClaimReading::claim_form))]
fn parse_form(alloc: Global, name: &[u8], rest: &[u8]) -> Result<ClaimedReply, ReadError>
    ensures { Gives (λ c. c) result (claim_form name.now (words_after rest.now)) }
{
    if name == b"cache".as_slice() {
        Ok(parse_cache(rest)?)
    } else if name == b"handle".as_slice() {
        Ok(parse_handle(rest)?)
    } else if name == b"ask".as_slice() {
        Ok(parse_ask(rest)?)
    } else if name == b"sign".as_slice() {
        Ok(parse_sign(rest)?)
    } else if name == b"refused".as_slice() {
        Ok(parse_refused(rest)?)
    } else if name == b"done".as_slice() {
        parse_done(alloc, rest)
    } else if name == b"cancelled".as_slice() {
        Ok(parse_cancelled(rest)?)
    } else {
        Err(ReadError::NotUnderstood)
    }
}

#[tactic(auto, unfolding(crate::specs::ClaimReading::cache_claim))]
fn parse_cache(rest: &[u8]) -> Result<ClaimedReply, NotUnderstood>
    ensures { Reads (λ c. c) result (cache_claim (words_after rest.now)) }
{
    let (number, rest) = u32_at(rest)?;
    at_end_of_line(ClaimedReply::Cache(number), rest)
}

#[tactic(auto, unfolding(crate::specs::ClaimReading::handle_claim))]
fn parse_handle(rest: &[u8]) -> Result<ClaimedReply, NotUnderstood>
    ensures { Reads (λ c. c) result (handle_claim (words_after rest.now)) }
{
    let (number, rest) = u32_at(rest)?;
    at_end_of_line(ClaimedReply::Handle(number), rest)
}

#[tactic(auto, unfolding(crate::specs::ClaimReading::ask_claim))]
fn parse_ask(rest: &[u8]) -> Result<ClaimedReply, NotUnderstood>
    ensures { Reads (λ c. c) result (ask_claim (words_after rest.now)) }
{
    let (provider, rest) = u32_at(rest)?;
    at_end_of_line(ClaimedReply::Ask(provider), rest)
}

#[tactic(auto, unfolding(crate::specs::ClaimReading::sign_claim))]
fn parse_sign(rest: &[u8]) -> Result<ClaimedReply, NotUnderstood>
    ensures { Reads (λ c. c) result (sign_claim (words_after rest.now)) }
{
    let (generation, rest) = number_at(u64::MAX, rest)?;
    let wake = parse_wake(rest)?;
    Ok(ClaimedReply::Sign { generation, wake })
}

#[tactic(auto, unfolding(crate::specs::ClaimReading::refused_claim))]
fn parse_refused(rest: &[u8]) -> Result<ClaimedReply, NotUnderstood>
    ensures { Reads (λ c. c) result (refused_claim (words_after rest.now)) }
{
    let (why, rest) = why_at(rest)?;
    let wake = parse_wake(rest)?;
    Ok(ClaimedReply::Refused { why, wake })
}

#[tactic(auto, unfolding(crate::specs::ClaimReading::done_claim))]
fn parse_done(alloc: Global, rest: &[u8]) -> Result<ClaimedReply, ReadError>
    ensures { Gives (λ c. c) result (done_claim (words_after rest.now)) }
{
    Ok(ClaimedReply::Done(parse_head(alloc, rest)?))
}

#[tactic(auto, unfolding(crate::specs::ClaimReading::cancelled_claim))]
fn parse_cancelled(rest: &[u8]) -> Result<ClaimedReply, NotUnderstood>
    ensures { Reads (λ c. c) result (cancelled_claim (words_after rest.now)) }
{
    let wake = parse_wake(rest)?;
    Ok(ClaimedReply::Cancelled { wake })
}

/// Why a call was refused, and what stands after it.
#[tactic(auto, unfolding(crate::specs::ClaimReading::why_at, crate::specs::ClaimReading::loader_at, crate::specs::ClaimReading::service_at))]
fn why_at(rest: &[u8]) -> Result<(ClaimedWhy, &[u8]), NotUnderstood>
    ensures { Reads (λ x. (x.0, words_after x.1.now)) result (why_at (words_after rest.now)) }
{
    let (kind, rest) = word_at(rest)?;
    if kind == b"missing".as_slice() {
        Ok((ClaimedWhy::Missing, rest))
    } else if kind == b"short".as_slice() {
        Ok((ClaimedWhy::Short, rest))
    } else if kind == b"range".as_slice() {
        Ok((ClaimedWhy::Range, rest))
    } else if kind == b"loader".as_slice() {
        let (error, rest) = number_at(u64::MAX, rest)?;
        Ok((ClaimedWhy::Loader(error), rest))
    } else if kind == b"service".as_slice() {
        let (error, rest) = number_at(u64::MAX, rest)?;
        Ok((ClaimedWhy::Service(error), rest))
    } else {
        Err(NotUnderstood)
    }
}

/// The call to wake that the words at the end of a line name, or none where there are no words.
#[tactic(auto, unfolding(crate::specs::ClaimReading::wake_in, crate::specs::ClaimReading::woken_in))]
fn parse_wake(rest: &[u8]) -> Result<Option<CallId>, NotUnderstood>
    ensures { Reads (λ w. w) result (wake_in (words_after rest.now)) }
{
    let Some((word, rest)) = next_word(rest) else {
        return Ok(None);
    };
    if word != b"wake".as_slice() {
        return Err(NotUnderstood);
    }
    let (call, rest) = call_at(rest)?;
    at_end_of_line(Some(call), rest)
}
