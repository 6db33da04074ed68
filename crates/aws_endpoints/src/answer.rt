//! What is read of a response.
ghost use Rattle.std.specs.Prelude.{◌≡◌, ◌≢◌, ◌⊎◌, ◌↔◌, ◌++◌, decimal, codes, IfOk, string_bytes};
ghost use Rattle.std.specs.Str.Lossy.{utf8_lossy};
ghost use Rattle.http.specs.Response.{head_of, body_of};
ghost use Rattle.sign_base.specs.Refusal.{IsErrorOf};
ghost use Rattle.sign_base.specs.declared.error_kind.ErrorKind.TheVariants.{CredentialInvalid};
ghost use Rattle.aws_credentials.specs.Found.{IsFound};
ghost use Rattle.aws_json.specs.Reading.{IsReading};
ghost use Rattle.aws_endpoints.specs.Asking.{GivesPolled, GivesRead};
ghost use Rattle.aws_endpoints.specs.Answer.{body_in, body_within, session_in_answer, EndsWith};

use crate::refused::refused;
use aws_credentials::{SessionCredential, polled_session};
use aws_json::{DocumentForm, session_of_json};
use bytes::Bytes;
use credentials::Polled;
use http::Response;
use sign_base::{Error, ErrorKind, NoMemory};
use std::alloc::Global;

/// The most bytes that a response may have.
const MOST_BYTES: usize = 1_048_576;

/// What is answered by a poll of a request whose response has the credential.
pub fn session_polled(
    alloc: Global,
    place: &str,
    polled: Polled<Response<Bytes>>,
) -> Polled<Option<SessionCredential>>
    ensures gives { GivesPolled (session_in_answer place.now) EndsWith polled result
        ⊎ (result ≡ Polled.OutOfMemory) }
    ensures pending { (result ≡ Polled.Pending) ↔ (polled ≡ Polled.Pending) }
{
    match polled {
        Polled::Ready(response) => session_answered(alloc, place, response),
        Polled::Pending => Polled::Pending,
        Polled::Failed(error) => Polled::Failed(error),
        Polled::OutOfMemory => Polled::OutOfMemory,
    }
}

/// What is answered to a response.
fn session_answered(
    alloc: Global,
    place: &str,
    response: Response<Bytes>,
) -> Polled<Option<SessionCredential>>
    ensures gives { GivesRead EndsWith (session_in_answer place.now response) result
        ⊎ (result ≡ Polled.OutOfMemory) }
    ensures ready { result ≢ Polled.Pending }
{
    polled_session(session_in_answer(alloc, place, response))
}

/// The credential of a response.
fn session_in_answer(
    alloc: Global,
    place: &str,
    response: Response<Bytes>,
) -> Result<Option<SessionCredential>, Error>
    ensures { IsFound (session_in_answer place.now response) result }
{
    let body = body_in(alloc, place, response)?;
    let text = text_of(alloc, body.as_slice())?;
    session_of_json(alloc, DocumentForm::Endpoint, place, text.as_str())
}

/// The body of a response of status 200.
pub fn body_in(alloc: Global, place: &str, response: Response<Bytes>) -> Result<Bytes, Error>
    ensures { IsReading (λ body. body) (body_in place.now response) result }
{
    let (head, body) = response.into_parts();
    let status = head.status.as_u16();
    drop(head);
    if status != 200 {
        drop(body);
        return Err(refused_status(alloc, status, place));
    }
    body_within(alloc, place, body)
}

fn body_within(alloc: Global, place: &str, body: Bytes) -> Result<Bytes, Error>
    ensures { IsReading (λ body. body) (body_within place.now body) result }
{
    if body.len() > MOST_BYTES {
        drop(body);
        return Err(refused(alloc, "more than 1 MiB in ", place));
    }
    Ok(body)
}

fn refused_status(alloc: Global, status: u16, place: &str) -> Error
    ensures { IsErrorOf CredentialInvalid (codes "status " ++ (decimal status ++ (codes " in " ++ place.now)))
        result }
{
    match format!(in alloc; "status {status} in {place}") {
        Ok(message) => Error::of(ErrorKind::CredentialInvalid, message),
        Err(_) => Error::out_of_memory(),
    }
}

/// The bytes as text, with U+FFFD for what is not UTF-8.
fn text_of(alloc: Global, bytes: &[u8]) -> Result<String, NoMemory<()>>
    ensures { IfOk result (λ text. string_bytes text ≡ utf8_lossy bytes.now) }
{
    Ok(String::from_utf8_lossy(alloc, bytes)?)
}
