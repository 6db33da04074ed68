//! What a head says of its content, and the word that it is signed with.
ghost use Rattle.std.specs.Prelude.{◌≡◌, ◌⊎◌, ◌||◌, ℕ, List, Ok, Err, IfOk, IfErr, OnOk, true, false};
ghost use Rattle.std.specs.Prelude.{codes, bytes_eq, not, unwrap_or, option_map};
ghost use Rattle.std.specs.List.{list_all, list_any, find};
ghost use Rattle.sigv4_core.specs.SignedHead.{field};
ghost use Rattle.aws_service.specs.Content.{is_content, is_payload_word, chosen_word, says_no_other};
ghost use Rattle.aws_service.specs.Content.{stating, with_word};

use crate::{AwsError, ContentRule};
use sign_base::{ErrorKind, Field, NoMemory, Octets};
use sigv4_core::Payload;
use std::alloc::Global;

const CONTENT: &[u8] = b"x-amz-content-sha256";

/// The payload that the head names, where the rule takes it.
pub(crate) fn own_payload(
    alloc: Global,
    rule: ContentRule,
    headers: &[Field],
) -> Result<Option<Payload>, AwsError>
    ensures ok { IfOk result (λ own. (word : List ℕ)
        → chosen_word rule word (find is_content headers.now) ≡ Ok (unwrap_or own word)) }
    ensures err { IfErr result (λ why. (why ≡ AwsError.OutOfMemory) ⊎ ((word : List ℕ)
        → chosen_word rule word (find is_content headers.now) ≡ Err why)) }
{
    match (rule, first_content(headers)) {
        (ContentRule::OfHead, Some(own)) => Ok(Some(payload_of(alloc, own.value.as_slice())?)),
        _ => Ok(None),
    }
}

/// The payload with this word.
fn payload_of(alloc: Global, word: &[u8]) -> Result<Payload, AwsError>
    ensures ok { IfOk result (λ payload. payload ≡ word.now) }
    ensures accepted { OnOk result (is_payload_word word.now ≡ true) }
    ensures err { IfErr result (λ why. (why ≡ AwsError.OutOfMemory)
        ⊎ ((why ≡ AwsError.Content) × (is_payload_word word.now ≡ false))) }
{
    if word == b"UNSIGNED-PAYLOAD".as_slice() {
        return Ok(Payload::unsigned(alloc)?);
    }
    match Payload::digest(alloc, word) {
        Ok(payload) => Ok(payload),
        Err(error) if error.kind() == ErrorKind::OutOfMemory => Err(AwsError::OutOfMemory),
        Err(_) => Err(AwsError::Content),
    }
}

fn first_content(headers: &[Field]) -> Option<&Field>
    ensures { option_map (λ f. f.now) result ≡ find is_content headers.now }
{
    headers.iter().find(|field| is_content(field))
}

/// Whether no header says another word than this one.
pub(crate) fn says_no_other(word: &[u8], headers: &[Field]) -> bool
    ensures { result ≡ says_no_other word.now headers.now }
{
    headers.iter().all(|field| !is_content(field) || field.value.as_slice() == word)
}

fn is_content(field: &Field) -> bool
    ensures { result ≡ is_content field.now }
{
    field.name.as_slice().eq_ignore_ascii_case(CONTENT)
}

/// Adds the header that says this word, where the rule wants one and none is there.
pub(crate) fn state_content(
    alloc: Global,
    rule: ContentRule,
    word: &[u8],
    headers: &mut Vec<Field>,
) -> Result<(), NoMemory<()>>
    ensures { OnOk result (headers.new.items ≡ with_word rule word.now headers.old.items) }
{
    match rule {
        ContentRule::Unstated => Ok(()),
        ContentRule::Stated | ContentRule::OfHead => push_content(alloc, word, headers),
    }
}

fn push_content(alloc: Global, word: &[u8], headers: &mut Vec<Field>) -> Result<(), NoMemory<()>>
    ensures { OnOk result (headers.new.items ≡ stating word.now headers.old.items) }
{
    if !states_content(headers.as_slice()) {
        headers.push(Field {
            name: Octets::from_slice(alloc, CONTENT)?,
            value: Octets::from_slice(alloc, word)?,
        })?;
    }
    Ok(())
}

fn states_content(headers: &[Field]) -> bool
    ensures { result ≡ list_any is_content headers.now }
{
    headers.iter().any(|field| is_content(field))
}
