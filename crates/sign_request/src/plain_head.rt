//! The bridge between the heads of `http` and plain ones.
ghost use Rattle.std.specs.Prelude.{◌≡◌, ◌⊎◌, IfOk, IfErr, OnOk, OnErr, MatchOption};
ghost use Rattle.http_header.specs.Token.{IsToken};
ghost use Rattle.http_uri.specs.Uri.{Spells, SpellsNone, uri_text};
ghost use Rattle.sign_request.specs.Crossing.{AnswersParts, AnswersCommit};
ghost use Rattle.sign_request.specs.PlainHead.{http_version, header_map, IsUnknownVersion, IsHeadOf};
ghost use Rattle.sign_request.specs.PlainHead.{ArePartsOf, Commits, RefusesHead, RefusesTarget};
ghost use Rattle.sign_request.specs.Refusal.{IsOutOfMemory, RefusedFor, RefusedAs, unknown_version};

use crate::fields::{fields_of, headers_of};
use crate::refusal::{or_out_of_memory, refusal};
use crate::{FromHttpError, HeaderSeeds};
use http::Method;
use http::header::HeaderMap;
use http::method::MethodError;
use http::request::Parts;
use http::uri::Uri;
use sign_base::{Error, Head, NoMemory, Octets, Version};
use std::alloc::Global;

const UNKNOWN_VERSION: &str = "unknown version";

/// The plain head with the four values of a head of `http`: the URI as `Display` writes it, and
/// the headers in the map's order.
///
/// `RequestInvalid` where the version is none of the five that a plain head has.
pub fn head_of(alloc: Global, parts: &Parts) -> Result<Head, Error>
    ensures ok { IfOk result (IsHeadOf parts.now) }
    ensures err { IfErr result (λ e. IsOutOfMemory e
        ⊎ RefusedFor unknown_version (IsUnknownVersion parts.now.version) e) }
{
    match version_of(parts.version) {
        Some(version) => Ok(with_version(alloc, parts, version)?),
        None => Err(refusal(alloc, UNKNOWN_VERSION)),
    }
}

fn with_version(alloc: Global, parts: &Parts, version: Version) -> Result<Head, NoMemory<()>>
    requires { http_version version ≡ parts.now.version }
    ensures { IfOk result (IsHeadOf parts.now) }
{
    Ok(Head {
        method: Octets::from_slice(alloc, parts.method.as_str().as_bytes())?,
        uri: uri_octets(alloc, &parts.uri)?,
        version,
        headers: fields_of(alloc, &parts.headers)?,
    })
}

fn uri_octets(alloc: Global, uri: &Uri) -> Result<Octets, NoMemory<()>>
    ensures { IfOk result (λ text. text ≡ uri_text uri.now) }
{
    let text = uri.to_string(alloc)?;
    Ok(Octets::from_vec(text.into_bytes()))
}

/// The head of `http` with the four values of a plain one. Names of headers come in lower case.
/// Where the names come from outside, `parts_of_seeded` is the call to use.
///
/// `RequestInvalid` where `http` does not accept the method, the URI or a header, or where the
/// header map is full.
pub fn parts_of(alloc: Global, head: &Head) -> Result<Parts, Error>
    ensures ok { IfOk result (ArePartsOf head.now) }
    ensures accepted { OnOk result (¬ (RefusesHead head.now)) }
    ensures err { IfErr result (λ e. IsOutOfMemory e ⊎ RefusedAs (RefusesHead head.now) e) }
{
    parts_of_seeded(alloc, head, HeaderSeeds::default())
}

/// Answers what `parts_of` does, whatever the keys. The header map has these keys, and so has each
/// clone of it.
pub fn parts_of_seeded(alloc: Global, head: &Head, keys: HeaderSeeds) -> Result<Parts, Error>
    ensures { AnswersParts head.now result }
{
    let method = method_of(alloc, head.method.as_slice())?;
    match target_of(alloc, head, keys) {
        Ok((uri, headers)) => Ok(Parts {
            method,
            uri,
            version: http_version_of(head.version),
            headers,
        }),
        Err(e) => {
            drop(method);
            Err(e)
        }
    }
}

/// Puts URI and headers of a plain head into a head of `http`, both or none. Method and version
/// stay. Where the names of the headers come from outside, `commit_seeded` is the call to use.
///
/// `RequestInvalid` where `http` does not accept the URI or a header, or where the header map is
/// full. A refusal leaves the head as it was.
pub fn commit(alloc: Global, parts: &mut Parts, head: &Head) -> Result<(), Error>
    ensures ok { OnOk result (Commits head.now parts.old parts.new) }
    ensures accepted { OnOk result (¬ (RefusesTarget head.now)) }
    ensures unchanged { OnErr result (parts.new ≡ parts.old) }
    ensures err { IfErr result (λ e. IsOutOfMemory e ⊎ RefusedAs (RefusesTarget head.now) e) }
{
    commit_seeded(alloc, parts, head, HeaderSeeds::default())
}

/// Does what `commit` does, whatever the keys. The new header map has these keys; those of the old
/// one go with it.
pub fn commit_seeded(
    alloc: Global,
    parts: &mut Parts,
    head: &Head,
    keys: HeaderSeeds,
) -> Result<(), Error>
    ensures { AnswersCommit head.now parts.old result parts.new }
{
    let (uri, headers) = target_of(alloc, head, keys)?;
    put_target(parts, uri, headers);
    Ok(())
}

/// URI and headers, before anything is put into a head.
fn target_of(alloc: Global, head: &Head, keys: HeaderSeeds) -> Result<(Uri, HeaderMap), Error>
    ensures uri { IfOk result (λ target. Spells head.now.uri target.0) }
    ensures headers { IfOk result (λ target. target.1 ≡ header_map head.now.headers) }
    ensures accepted { OnOk result (¬ (RefusesTarget head.now)) }
    ensures err { IfErr result (λ e. IsOutOfMemory e ⊎ RefusedAs (RefusesTarget head.now) e) }
{
    let uri = uri_of(alloc, head.uri.as_slice())?;
    match headers_of(alloc, &head.headers, keys) {
        Ok(headers) => Ok((uri, headers)),
        Err(e) => {
            drop(uri);
            Err(e)
        }
    }
}

fn put_target(parts: &mut Parts, uri: Uri, headers: HeaderMap)
    ensures { parts.new ≡ record parts.old { uri = uri; headers = headers } }
{
    parts.uri = uri;
    parts.headers = headers;
}

fn version_of(version: http::Version) -> Option<Version>
    ensures { MatchOption result (IsUnknownVersion version) (λ plain. http_version plain ≡ version) }
{
    if version == http::Version::HTTP_09 {
        Some(Version::V09)
    } else if version == http::Version::HTTP_10 {
        Some(Version::V10)
    } else if version == http::Version::HTTP_11 {
        Some(Version::V11)
    } else if version == http::Version::HTTP_2 {
        Some(Version::V2)
    } else if version == http::Version::HTTP_3 {
        Some(Version::V3)
    } else {
        None
    }
}

fn http_version_of(version: Version) -> http::Version
    ensures { result ≡ http_version version }
{
    match version {
        Version::V09 => http::Version::HTTP_09,
        Version::V10 => http::Version::HTTP_10,
        Version::V11 => http::Version::HTTP_11,
        Version::V2 => http::Version::HTTP_2,
        Version::V3 => http::Version::HTTP_3,
    }
}

fn method_of(alloc: Global, name: &[u8]) -> Result<Method, Error>
    ensures ok { IfOk result (λ method. method ≡ name.now) }
    ensures accepted { OnOk result (¬ ¬ (IsToken name.now)) }
    ensures err { IfErr result (λ e. IsOutOfMemory e ⊎ RefusedAs (¬ (IsToken name.now)) e) }
{
    match Method::from_bytes(alloc, name) {
        Ok(method) => Ok(method),
        Err(MethodError::Invalid) => Err(or_out_of_memory(Error::from_http(
            alloc,
            &http::Error::Method,
        ))),
        Err(MethodError::OutOfMemory) => Err(Error::out_of_memory()),
    }
}

fn uri_of(alloc: Global, text: &[u8]) -> Result<Uri, Error>
    ensures ok { IfOk result (Spells text.now) }
    ensures accepted { OnOk result (¬ (SpellsNone text.now)) }
    ensures err { IfErr result (λ e. IsOutOfMemory e ⊎ RefusedAs (SpellsNone text.now) e) }
{
    match Uri::from_bytes(alloc, text) {
        Ok(uri) => Ok(uri),
        Err(e) => Err(or_out_of_memory(Error::from_uri(alloc, &e))),
    }
}
