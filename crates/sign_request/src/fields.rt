//! Header maps, and lists of plain fields.
ghost use Rattle.std.specs.Prelude.{◌≡◌, ◌⊎◌, [], IfOk, IfErr, OnOk, map};
ghost use Rattle.http_header.specs.FieldName.{IsFieldName};
ghost use Rattle.http_header.specs.FieldValue.{IsFieldValue, plain_value};
ghost use Rattle.http_header.specs.HeaderMap.{append, pairs, RefusesAppend};
ghost use Rattle.http_header.specs.Token.{lowercase};
ghost use Rattle.sign_request.specs.Headers.{header_pair};
ghost use Rattle.sign_request.specs.PlainHead.{field_pair, header_map, RefusesField, RefusesFields};
ghost use Rattle.sign_request.specs.Refusal.{IsOutOfMemory, RefusedAs};

use crate::refusal::or_out_of_memory;
use crate::{FromHttpError, HeaderSeeds};
use http::header::{HeaderMap, HeaderMapError, HeaderName, HeaderValue, MAX_KEYS};
use sign_base::{Error, Field, Fields, NoMemory, Octets};
use std::alloc::Global;

/// The headers as plain fields, in the map's order.
pub(crate) fn fields_of(alloc: Global, headers: &HeaderMap) -> Result<Fields, NoMemory<()>>
    ensures { IfOk result (λ fields. map field_pair fields ≡ map header_pair (pairs headers.now)) }
{
    let mut fields = Vec::with_capacity(alloc, headers.len())?;
    for (name, value) in headers.iter() {
        fields.push(field_of(alloc, name, value)?)?;
    }
    Ok(Fields::from_vec(fields))
}

fn field_of(alloc: Global, name: &HeaderName, value: &HeaderValue) -> Result<Field, NoMemory<()>>
    ensures { IfOk result (λ field. field_pair field ≡ header_pair (name.now, value.now)) }
{
    Ok(Field {
        name: Octets::from_slice(alloc, name.as_bytes())?,
        value: Octets::from_slice(alloc, value.as_bytes())?,
    })
}

/// The header map of plain fields, each appended after those before it, with these keys.
pub(crate) fn headers_of(
    alloc: Global,
    fields: &Fields,
    keys: HeaderSeeds,
) -> Result<HeaderMap, Error>
    ensures ok { IfOk result (λ headers. headers ≡ header_map fields.now) }
    ensures accepted { OnOk result (¬ (RefusesFields fields.now)) }
    ensures err { IfErr result (λ e. IsOutOfMemory e ⊎ RefusedAs (RefusesFields fields.now) e) }
{
    let mut headers = map_for(alloc, fields.as_slice().len(), keys)?;
    match append_fields(alloc, &mut headers, fields) {
        Ok(()) => Ok(headers),
        Err(e) => {
            drop(headers);
            Err(e)
        }
    }
}

/// Appends the fields to an empty map.
fn append_fields(alloc: Global, headers: &mut HeaderMap, fields: &Fields) -> Result<(), Error>
    requires { headers.old ≡ [] }
    ensures ok { OnOk result (headers.new ≡ header_map fields.now) }
    ensures accepted { OnOk result (¬ (RefusesFields fields.now)) }
    ensures err { IfErr result (λ e. IsOutOfMemory e ⊎ RefusedAs (RefusesFields fields.now) e) }
{
    for field in fields.as_slice() {
        append_field(alloc, headers, field)?;
    }
    Ok(())
}

/// An empty map with room for so many names, or for as many as a map can have.
fn map_for(alloc: Global, names: usize, keys: HeaderSeeds) -> Result<HeaderMap, Error>
    ensures ok { IfOk result (λ headers. headers ≡ []) }
    ensures err { IfErr result IsOutOfMemory }
{
    let mut headers = keys.empty_map(alloc);
    match headers.reserve(names.min(MAX_KEYS)) {
        Ok(()) => Ok(headers),
        Err(_) => Err(Error::out_of_memory()),
    }
}

fn append_field(alloc: Global, headers: &mut HeaderMap, field: &Field) -> Result<(), Error>
    ensures ok { OnOk result
        (headers.new ≡ append headers.old (lowercase field.now.name) (plain_value field.now.value)) }
    ensures accepted { OnOk result (¬ (RefusesField headers.old field.now)) }
    ensures err { IfErr result (λ e. IsOutOfMemory e
        ⊎ RefusedAs (RefusesField headers.old field.now) e) }
{
    let name = name_of(alloc, field.name.as_slice())?;
    match value_of(alloc, field.value.as_slice()) {
        Ok(value) => append_to(alloc, headers, name, value),
        Err(e) => {
            drop(name);
            Err(e)
        }
    }
}

fn append_to(
    alloc: Global,
    headers: &mut HeaderMap,
    name: HeaderName,
    value: HeaderValue,
) -> Result<(), Error>
    ensures ok { OnOk result (headers.new ≡ append headers.old name value) }
    ensures accepted { OnOk result (¬ (RefusesAppend headers.old name)) }
    ensures err { IfErr result (λ e. IsOutOfMemory e ⊎ RefusedAs (RefusesAppend headers.old name) e) }
{
    match headers.append(name, value) {
        Ok(_) => Ok(()),
        Err(HeaderMapError::MaxSizeReached) => {
            Err(or_out_of_memory(Error::from_http(alloc, &http::Error::MaxSizeReached)))
        }
        Err(HeaderMapError::OutOfMemory) => Err(Error::out_of_memory()),
    }
}

fn name_of(alloc: Global, name: &[u8]) -> Result<HeaderName, Error>
    ensures ok { IfOk result (λ found. found ≡ lowercase name.now) }
    ensures accepted { OnOk result (¬ ¬ (IsFieldName name.now)) }
    ensures err { IfErr result (λ e. IsOutOfMemory e ⊎ RefusedAs (¬ (IsFieldName name.now)) e) }
{
    match HeaderName::from_bytes(alloc, name) {
        Ok(name) => Ok(name),
        Err(e) => Err(or_out_of_memory(Error::from_header_name(alloc, &e))),
    }
}

fn value_of(alloc: Global, value: &[u8]) -> Result<HeaderValue, Error>
    ensures ok { IfOk result (λ found. found ≡ plain_value value.now) }
    ensures accepted { OnOk result (¬ ¬ (IsFieldValue value.now)) }
    ensures err { IfErr result (λ e. IsOutOfMemory e ⊎ RefusedAs (¬ (IsFieldValue value.now)) e) }
{
    match HeaderValue::from_bytes(alloc, value) {
        Ok(value) => Ok(value),
        Err(e) => Err(or_out_of_memory(Error::from_header_value(alloc, &e))),
    }
}
