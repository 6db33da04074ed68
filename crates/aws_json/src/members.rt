//! The members of a document: texts, moments, and what says that it has a credential.
ghost use Rattle.std.specs.Prelude.{◌≡◌, codes, option_map, string_bytes, IfOk};
ghost use Rattle.serde_json.specs.Find.{get};
ghost use Rattle.serde_json.specs.View.{view};
ghost use Rattle.sign_time.specs.Reading.{read_moment};
ghost use Rattle.aws_json.specs.Reading.{IsReading};
ghost use Rattle.aws_json.specs.Document.{text_under, expiry_in, expiry_of};
ghost use Rattle.aws_json.specs.Document.{has_version_1, is_success, accepted_in};

use crate::DocumentForm;
use crate::refused::{member_refused, refused};
use serde_json::Value;
use sign_base::{Error, NoMemory, Timestamp};
use sign_time::ReadMoment;
use std::alloc::Global;

/// The text under a name, or None where it is absent or null.
pub(crate) fn text_under(
    alloc: Global,
    name: &str,
    place: &str,
    document: &Value,
) -> Result<Option<String>, Error>
    ensures { IsReading (option_map string_bytes) (text_under name.now place.now (view document.now)) result }
{
    let Some(value) = document.get(name) else {
        return Ok(None);
    };
    match value {
        Value::Null => Ok(None),
        Value::String(text) => Ok(Some(copied(alloc, text.as_str())?)),
        _ => Err(member_refused(alloc, name, " is no text in ", place)),
    }
}

fn copied(alloc: Global, text: &str) -> Result<String, NoMemory<()>>
    ensures { IfOk result (λ copy. string_bytes copy ≡ text.now) }
{
    Ok(String::from_str(alloc, text)?)
}

/// The expiry that the document has.
pub(crate) fn expiry(
    alloc: Global,
    form: DocumentForm,
    place: &str,
    document: &Value,
) -> Result<Option<Timestamp>, Error>
    ensures { IsReading (λ moment. moment) (expiry_in form place.now (view document.now)) result }
{
    match text_under(alloc, "Expiration", place, document)? {
        Some(text) => moment_of(alloc, place, text.as_str()),
        None => without_expiry(alloc, form, place),
    }
}

fn moment_of(alloc: Global, place: &str, text: &str) -> Result<Option<Timestamp>, Error>
    ensures { IsReading (λ moment. moment)
        (expiry_of DocumentForm.Endpoint place.now (Some text.now)) result }
{
    match read_moment(alloc, text) {
        Some(moment) => Ok(Some(moment)),
        None => Err(refused(alloc, "Expiration is no date in ", place)),
    }
}

/// The moment that a date of RFC 3339 names. The error would show the text.
fn read_moment(alloc: Global, text: &str) -> Option<Timestamp>
    ensures { result ≡ read_moment text.now }
{
    Timestamp::parse(alloc, text).ok()
}

fn without_expiry(
    alloc: Global,
    form: DocumentForm,
    place: &str,
) -> Result<Option<Timestamp>, Error>
    ensures { IsReading (λ moment. moment) (expiry_of form place.now None) result }
{
    match form {
        DocumentForm::Process => Ok(None),
        DocumentForm::Endpoint => Err(refused(alloc, "no Expiration in ", place)),
    }
}

/// Whether the document says that it has a credential, in the way of its form.
pub(crate) fn accept(
    alloc: Global,
    form: DocumentForm,
    place: &str,
    document: &Value,
) -> Result<(), Error>
    ensures { IsReading (λ accepted. accepted) (accepted_in form place.now (view document.now)) result }
{
    match form {
        DocumentForm::Process if !has_version_1(document) => {
            Err(refused(alloc, "Version is not 1 in ", place))
        }
        DocumentForm::Endpoint if !is_success(document) => {
            Err(refused(alloc, "Code is not Success in ", place))
        }
        _ => Ok(()),
    }
}

fn has_version_1(document: &Value) -> bool
    ensures { result ≡ has_version_1 (view document.now) }
{
    document
        .get("Version")
        .and_then(Value::as_u64)
        .is_some_and(|version| version == 1)
}

fn is_success(document: &Value) -> bool
    ensures { result ≡ is_success (get (codes "Code") (view document.now)) }
{
    match document.get("Code") {
        Some(code) => code.as_str().is_some_and(|code| code == "Success"),
        None => true,
    }
}
