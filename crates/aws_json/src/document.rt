//! The credential of a document.
ghost use Rattle.std.specs.Prelude.{◌≡◌};
ghost use Rattle.serde_json.specs.View.{view};
ghost use Rattle.aws_credentials.specs.Found.{Found, IsFound};
ghost use Rattle.aws_json.specs.Reading.{IsReading};
ghost use Rattle.aws_json.specs.Document.{object_in, found_in_members, found_in_document};
ghost use Rattle.aws_json.specs.Document.{token_name, with_access_key};

use crate::DocumentForm;
use crate::members::{accept, expiry, text_under};
use crate::refused::refused;
use aws_credentials::{KeyTexts, SessionCredential, session_in};
use serde_json::Value;
use sign_base::Error;
use std::alloc::Global;

/// The credential that a text of JSON has: an object with `AccessKeyId`, `SecretAccessKey`, the token and
/// `Expiration`, as the form has them. A member that is null counts as absent, of a name that comes twice the
/// last counts, and other members are passed over. It is never `Ok(None)`.
///
/// `CredentialInvalid`, with the place in its message and nothing of the text, where the text is no JSON (RFC
/// 8259) or no object; where its version or code says that it has no credential; where one of the four is no
/// text; where `Expiration` is no date of RFC 3339, or an endpoint's document has none; where there is no
/// access key or no secret key, or one of them or the token has not the form of what it is for.
///
/// It takes time and memory in proportion to the text, so bound that before.
#[tactic(auto, unfolding(crate::specs::Document::found_in_document))]
pub fn session_of_json(
    alloc: Global,
    form: DocumentForm,
    place: &str,
    text: &str,
) -> Result<Option<SessionCredential>, Error>
    ensures { IsFound (found_in_document form place.now text.now) result }
{
    let document = object_in(alloc, place, text)?;
    accept(alloc, form, place, &document)?;
    session_of_members(alloc, form, place, &document)
}

/// The object that the text is.
fn object_in(alloc: Global, place: &str, text: &str) -> Result<Value, Error>
    ensures { IsReading view (object_in place.now text.now) result }
{
    match Value::from_str(alloc, text) {
        Ok(value) if value.is_object() => Ok(value),
        Ok(_) => Err(refused(alloc, "no JSON object in ", place)),
        Err(error) if error.is_memory() => Err(Error::out_of_memory()),
        Err(_) => Err(refused(alloc, "no JSON in ", place)),
    }
}

fn session_of_members(
    alloc: Global,
    form: DocumentForm,
    place: &str,
    document: &Value,
) -> Result<Option<SessionCredential>, Error>
    ensures { IsFound (found_in_members form place.now (view document.now)) result }
{
    let expires = expiry(alloc, form, place, document)?;
    let texts = KeyTexts {
        access: text_under(alloc, "AccessKeyId", place, document)?,
        secret: text_under(alloc, "SecretAccessKey", place, document)?,
        token: text_under(alloc, token_name(form), place, document)?,
    };
    with_access_key(alloc, place, session_in(alloc, place, texts, expires))
}

/// The name of the member that has the token.
fn token_name(form: DocumentForm) -> &'static str
    ensures { result.now ≡ token_name form }
{
    match form {
        DocumentForm::Process => "SessionToken",
        DocumentForm::Endpoint => "Token",
    }
}

/// What was found, but for a document that names no access key.
fn with_access_key(
    alloc: Global,
    place: &str,
    found: Result<Option<SessionCredential>, Error>,
) -> Result<Option<SessionCredential>, Error>
    ensures { (what : Found) → IsFound what found → IsFound (with_access_key place.now what) result }
{
    match found {
        Ok(None) => Err(refused(alloc, "no access key in ", place)),
        found => found,
    }
}
