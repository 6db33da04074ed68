//! What the environment of a container says of its endpoint.
ghost use Rattle.std.specs.Prelude.{◌≡◌, ◌++◌, codes, IfOk, option_map, string_bytes};
ghost use Rattle.std.specs.List.{list_any};
ghost use Rattle.aws_credentials.specs.Found.{unless_empty};
ghost use Rattle.aws_json.specs.Reading.{IsReading};
ghost use Rattle.aws_endpoints.specs.Container.{container_request, asked_of, endpoint_of, container_head};
ghost use Rattle.aws_endpoints.specs.Container.{authorization, may_be_asked, is_plain};
ghost use Rattle.aws_endpoints.specs.Container.{plain_beginnings, begins_with, is_at};

use aws_credentials::HasVariables;
use sign_base::{Error, Field, Fields, Head, NoMemory, Octets, Version};
use std::alloc::Global;

/// How the URIs begin that may be asked without TLS.
const PLAIN_BEGINNINGS: [&str; 12] = [
    "http://127.0.0.1/",
    "http://127.0.0.1:",
    "http://localhost/",
    "http://localhost:",
    "http://[::1]/",
    "http://[::1]:",
    "http://169.254.170.2/",
    "http://169.254.170.2:",
    "http://169.254.170.23/",
    "http://169.254.170.23:",
    "http://[fd00:ec2::23]/",
    "http://[fd00:ec2::23]:",
];

const MAY_NOT_BE_ASKED: &str = "the environment names an endpoint that may not be asked";

/// The head that asks the endpoint of this environment, or None where it names none.
pub(crate) fn container_request<X: HasVariables>(
    alloc: Global,
    ctx: &X,
) -> Result<Option<Head>, Error>
    ensures { IsReading (λ head. head) (container_request (X.variables ctx.now)) result }
{
    let Some(uri) = endpoint(alloc, ctx)? else {
        return Ok(None);
    };
    if !may_be_asked(uri.as_str()) {
        return Err(Error::credential_invalid(alloc, MAY_NOT_BE_ASKED)?);
    }
    let token = variable(alloc, ctx, "AWS_CONTAINER_AUTHORIZATION_TOKEN")?;
    Ok(Some(container_head(alloc, uri, token)?))
}

/// The URI of the endpoint.
fn endpoint<X: HasVariables>(alloc: Global, ctx: &X) -> Result<Option<String>, NoMemory<()>>
    ensures { IfOk result (λ uri. option_map string_bytes uri ≡ endpoint_of
        (unless_empty (X.variables ctx.now (codes "AWS_CONTAINER_CREDENTIALS_RELATIVE_URI")))
        (unless_empty (X.variables ctx.now (codes "AWS_CONTAINER_CREDENTIALS_FULL_URI")))) }
{
    match variable(alloc, ctx, "AWS_CONTAINER_CREDENTIALS_RELATIVE_URI")? {
        Some(path) => Ok(Some(at_endpoint_of_ecs(alloc, path.as_str())?)),
        None => variable(alloc, ctx, "AWS_CONTAINER_CREDENTIALS_FULL_URI"),
    }
}

fn at_endpoint_of_ecs(alloc: Global, path: &str) -> Result<String, NoMemory<()>>
    ensures { IfOk result (λ uri. string_bytes uri ≡ codes "http://169.254.170.2" ++ path.now) }
{
    Ok(format!(in alloc; "http://169.254.170.2{path}")?)
}

/// The value of a variable that is not empty.
fn variable<X: HasVariables>(
    alloc: Global,
    ctx: &X,
    name: &str,
) -> Result<Option<String>, NoMemory<()>>
    ensures { IfOk result
        (λ value. option_map string_bytes value ≡ unless_empty (X.variables ctx.now name.now)) }
{
    match ctx.variable(alloc, name)? {
        Some(value) if !value.is_empty() => Ok(Some(value)),
        _ => Ok(None),
    }
}

/// Whether an endpoint may be asked: by TLS, or at a host that may be asked without.
fn may_be_asked(uri: &str) -> bool
    ensures { result ≡ may_be_asked uri.now }
{
    begins_with(uri, "https://") || is_plain(uri)
}

fn is_plain(uri: &str) -> bool
    ensures { result ≡ is_plain uri.now }
{
    !has_user(uri) && begins_plainly(uri)
}

fn has_user(uri: &str) -> bool
    ensures { result ≡ list_any is_at uri.now }
{
    uri.as_bytes().iter().any(|b| *b == b'@')
}

fn begins_plainly(uri: &str) -> bool
    ensures { result ≡ list_any (begins_with uri.now) plain_beginnings }
{
    begins_with_one(uri, &PLAIN_BEGINNINGS)
}

/// Whether the URI begins with one of these texts.
fn begins_with_one(uri: &str, beginnings: &[&str]) -> bool
    ensures { result ≡ list_any (λ text. begins_with uri.now text.now) beginnings.now }
{
    beginnings.iter().any(|text| begins_with(uri, *text))
}

fn begins_with(uri: &str, text: &str) -> bool
    ensures { result ≡ begins_with uri.now text.now }
{
    uri.starts_with(text)
}

fn container_head(alloc: Global, uri: String, token: Option<String>) -> Result<Head, NoMemory<()>>
    ensures { IfOk result (λ head. head ≡ container_head (string_bytes uri) (option_map string_bytes token)) }
{
    Ok(Head {
        method: Octets::from_slice(alloc, b"GET")?,
        uri: Octets::from_vec(uri.into_bytes()),
        version: Version::V11,
        headers: authorization(alloc, token)?,
    })
}

/// The header that has the token, where there is one.
fn authorization(alloc: Global, token: Option<String>) -> Result<Fields, NoMemory<()>>
    ensures { IfOk result (λ fields. fields ≡ authorization (option_map string_bytes token)) }
{
    match token {
        Some(token) => one_field(alloc, token),
        None => Ok(Fields::new(alloc)),
    }
}

fn one_field(alloc: Global, token: String) -> Result<Fields, NoMemory<()>>
    ensures { IfOk result (λ fields. fields ≡ authorization (Some (string_bytes token))) }
{
    let mut fields = Vec::with_capacity(alloc, 1)?;
    fields.push(Field {
        name: Octets::from_slice(alloc, b"authorization")?,
        value: Octets::from_vec(token.into_bytes()),
    })?;
    Ok(Fields::from_vec(fields))
}
