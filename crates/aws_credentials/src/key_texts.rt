//! The texts that a place has of a key, and the credential that they make.
ghost use Rattle.std.specs.Prelude.{◌≡◌, ◌≢◌, ◌++◌, [], IfOk, option_map};
ghost use Rattle.std.specs.Prelude.{string_bytes};
ghost use Rattle.sign_base.specs.Error.{new_error};
ghost use Rattle.sign_base.specs.declared.error_kind.ErrorKind.TheVariants.{CredentialInvalid, OutOfMemory};
ghost use Rattle.aws_credentials.specs.Found.{Found, found_in, unless_empty};
ghost use Rattle.aws_credentials.specs.Found.{IsFound, GivesFound};

use crate::SessionCredential;
use credentials::Polled;
use sign_base::{Error, ErrorKind, NoMemory, Timestamp};
use sigv4_core::SigCredential;
use std::alloc::Global;

/// The texts of an access key, of its secret and of a session's token, where they are there.
#[derive(Drop)]
pub struct KeyTexts {
    pub access: Option<String>,
    pub secret: Option<String>,
    pub token: Option<String>,
}

/// The credential that these texts make, or None where there is no access key. An empty text counts as
/// absent.
///
/// `CredentialInvalid`, with the place in its message, where there is no secret key, or where a text has not
/// the form of what it is for.
#[tactic(auto, unfolding(crate::specs::Found::found_in))]
pub fn session_in(
    alloc: Global,
    place: &str,
    texts: KeyTexts,
    expires: Option<Timestamp>,
) -> Result<Option<SessionCredential>, Error>
    ensures { IsFound (found_in place.now expires (option_map string_bytes texts.access)
        (option_map string_bytes texts.secret) (option_map string_bytes texts.token)) result }
{
    let Some(access) = unless_empty(&texts.access) else {
        return Ok(None);
    };
    let Some(secret) = unless_empty(&texts.secret) else {
        return Err(invalid(alloc, "no secret key in ", place)?);
    };
    let key = match SigCredential::new(alloc, access.as_bytes(), secret.as_bytes(), expires) {
        Ok(key) => key,
        Err(error) => return Err(named(alloc, &error, "invalid key in ", place)?),
    };
    match unless_empty(&texts.token) {
        Some(token) => match SessionCredential::with_token(alloc, key, token.as_bytes()) {
            Ok(session) => Ok(Some(session)),
            Err(error) => Err(named(alloc, &error, "invalid session token in ", place)?),
        },
        None => Ok(Some(SessionCredential::from(key))),
    }
}

/// A text that is not empty.
fn unless_empty(text: &Option<String>) -> Option<&str>
    ensures { option_map (λ t. t.now) result ≡ unless_empty (option_map string_bytes text.now) }
{
    match text {
        Some(text) if !text.is_empty() => Some(text.as_str()),
        _ => None,
    }
}

/// The error with this cause and place, or that there is no memory where this error says so.
fn named(alloc: Global, error: &Error, cause: &str, place: &str) -> Result<Error, NoMemory<()>>
    ensures memory { error.now.kind ≡ OutOfMemory → IfOk result (λ e. e ≡ new_error OutOfMemory []) }
    ensures invalid { error.now.kind ≢ OutOfMemory
        → IfOk result (λ e. e ≡ new_error CredentialInvalid (cause.now ++ place.now)) }
{
    if error.kind() == ErrorKind::OutOfMemory {
        return Ok(Error::out_of_memory());
    }
    invalid(alloc, cause, place)
}

fn invalid(alloc: Global, cause: &str, place: &str) -> Result<Error, NoMemory<()>>
    ensures { IfOk result (λ e. e ≡ new_error CredentialInvalid (cause.now ++ place.now)) }
{
    let mut message = String::from_str(alloc, cause)?;
    message.push_str(place)?;
    Ok(Error::of(ErrorKind::CredentialInvalid, message))
}

/// What a provider answers at a poll that found this; it is never pending.
pub fn polled_session(
    found: Result<Option<SessionCredential>, Error>,
) -> Polled<Option<SessionCredential>>
    ensures gives { (what : Found) → IsFound what found → GivesFound what result }
    ensures ready { result ≢ Polled.Pending }
{
    match found {
        Ok(session) => Polled::Ready(session),
        Err(error) if error.kind() == ErrorKind::OutOfMemory => Polled::OutOfMemory,
        Err(error) => Polled::Failed(error),
    }
}
