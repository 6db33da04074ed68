//! Reading a line of `sigv4`, word by word. The types of `sigv4_core` say which of its words are good.
ghost use Rattle.std.specs.Prelude.{◌≡◌, IfOk};
ghost use Rattle.sign_base.specs.declared.error_kind.ErrorKind.TheVariants as kind;
ghost use Rattle.line_words.specs.Readers.{words_after, Gives, NeedsMemory};
ghost use Rattle.signctl_by_line.specs.Sigv4Reading.{NamesForm, credential_of, credential_at, scope_of};
ghost use Rattle.signctl_by_line.specs.Sigv4Reading.{scope_at, payload_of, asked_at, item_form};
ghost use Rattle.signctl_by_line.specs.Sigv4Reading.{sigv4_item_of};

use crate::form::{Form, form_named};
use crate::sigv4_item::{Asked, Sigv4Item};
use line_words::head::{parse_head, parse_value};
use line_words::moment::parse_moment;
use line_words::word::{split_word, u32_at, word_at};
use line_words::{ReadError, ScriptVersion};
use sign_base::{Error, ErrorKind};
use sigv4_core::{Payload, SigCredential, SigScope};
use std::alloc::Global;

/// The item that a line without its newline spells.
///
/// Nothing of the line is copied but what the item keeps, so only a line that begins with the name of
/// a form can run out of memory.
#[tactic(auto, unfolding(crate::specs::Sigv4Reading::sigv4_words_say))]
pub fn read_sigv4_line(alloc: Global, line: &[u8]) -> Result<Sigv4Item, ReadError>
    ensures item { Gives (λ i. i) result (sigv4_item_of line.now) }
    ensures memory { NeedsMemory result (NamesForm line.now) }
{
    let (name, rest) = split_word(line);
    match form_named(name) {
        Some(form) => parse_item(alloc, form, rest),
        None => Err(ReadError::NotUnderstood),
    }
}

/// The item of a line of this form, by the words after its name.
#[tactic(auto, unfolding(crate::specs::Sigv4Reading::item_form, line_words::specs::Moments::moment_at))]
fn parse_item(alloc: Global, form: Form, rest: &[u8]) -> Result<Sigv4Item, ReadError>
    ensures { Gives (λ i. i) result (item_form form (words_after rest.now)) }
{
    let (credential, rest) = credential_at(alloc, rest)?;
    let (scope, rest) = scope_at(alloc, rest)?;
    let (word, rest) = word_at(rest)?;
    let moment = parse_moment(ScriptVersion::One, word)?;
    let (asked, rest) = asked_at(alloc, form, rest)?;
    let head = parse_head(alloc, rest)?;
    Ok(Sigv4Item {
        credential,
        scope,
        moment,
        asked,
        head,
    })
}

/// What a line of this form asks for, and what stands after the word that says more of it.
#[tactic(auto, unfolding(crate::specs::Sigv4Reading::asked_at))]
fn asked_at(alloc: Global, form: Form, rest: &[u8]) -> Result<(Asked, &[u8]), ReadError>
    ensures { Gives (λ x. (x.0, words_after x.1.now)) result (asked_at form (words_after rest.now)) }
{
    match form {
        Form::Sign => {
            let (word, rest) = word_at(rest)?;
            Ok((Asked::Sign(parse_payload(alloc, word)?), rest))
        }
        Form::Presign => {
            let (seconds, rest) = u32_at(rest)?;
            Ok((Asked::Presign(seconds), rest))
        }
        Form::Verify => Ok((Asked::Verify, rest)),
    }
}

/// The credential of the next two words, and what stands after them.
#[tactic(auto, unfolding(crate::specs::Sigv4Reading::credential_at))]
fn credential_at(alloc: Global, rest: &[u8]) -> Result<(SigCredential, &[u8]), ReadError>
    ensures { Gives (λ x. (x.0, words_after x.1.now)) result (credential_at (words_after rest.now)) }
{
    let (access, rest) = word_at(rest)?;
    let (word, rest) = word_at(rest)?;
    let secret = parse_value(alloc, word)?;
    Ok((parse_credential(alloc, access, secret.as_slice())?, rest))
}

fn parse_credential(alloc: Global, access: &[u8], secret: &[u8]) -> Result<SigCredential, ReadError>
    ensures { Gives (λ c. c) result (credential_of access.now secret.now) }
{
    match SigCredential::new(alloc, access, secret, None) {
        Ok(credential) => Ok(credential),
        Err(error) => Err(read_error(error)),
    }
}

/// The scope of the next two words, and what stands after them.
#[tactic(auto, unfolding(crate::specs::Sigv4Reading::scope_at))]
fn scope_at(alloc: Global, rest: &[u8]) -> Result<(SigScope, &[u8]), ReadError>
    ensures { Gives (λ x. (x.0, words_after x.1.now)) result (scope_at (words_after rest.now)) }
{
    let (region, rest) = word_at(rest)?;
    let (service, rest) = word_at(rest)?;
    Ok((parse_scope(alloc, region, service)?, rest))
}

fn parse_scope(alloc: Global, region: &[u8], service: &[u8]) -> Result<SigScope, ReadError>
    ensures { Gives (λ s. s) result (scope_of region.now service.now) }
{
    match SigScope::new(alloc, region, service) {
        Ok(scope) => Ok(scope),
        Err(error) => Err(read_error(error)),
    }
}

/// The payload that a word names: `UNSIGNED-PAYLOAD`, or by its digest.
fn parse_payload(alloc: Global, word: &[u8]) -> Result<Payload, ReadError>
    ensures { Gives (λ p. p) result (payload_of word.now) }
{
    if word == b"UNSIGNED-PAYLOAD".as_slice() {
        return Ok(Payload::unsigned(alloc)?);
    }
    match Payload::digest(alloc, word) {
        Ok(payload) => Ok(payload),
        Err(error) => Err(read_error(error)),
    }
}

/// What the refusal of a part means for its line.
fn read_error(error: Error) -> ReadError
    ensures memory { error.kind ≡ kind.OutOfMemory → result ≡ ReadError.OutOfMemory }
    ensures refused { (error.kind ≡ kind.OutOfMemory → ⊥) → result ≡ ReadError.NotUnderstood }
{
    if error.kind() == ErrorKind::OutOfMemory {
        ReadError::OutOfMemory
    } else {
        ReadError::NotUnderstood
    }
}
