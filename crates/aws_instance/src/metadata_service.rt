//! What an environment says of the metadata service of an instance.
ghost use Rattle.std.specs.Prelude.{◌≡◌, ◌-◌, codes, length, slice_get, IfOk, option_map, string_bytes};
ghost use Rattle.aws_credentials.specs.Found.{unless_empty};
ghost use Rattle.aws_json.specs.Reading.{IsReading};
ghost use Rattle.aws_instance.specs.Requests.{service_root, root_of, is_http, without_slash, is_true};
ghost use Rattle.aws_instance.specs.Requests.{is_same_word, is_slash};

use aws_credentials::HasVariables;
use sign_base::{Error, NoMemory, Octets};
use std::alloc::Global;

const NO_ENDPOINT: &str = "the environment names no endpoint of an instance";

/// The address of the service, or None where the environment switches it off.
pub(crate) fn service_root<X: HasVariables>(alloc: Global, ctx: &X) -> Result<Option<Octets>, Error>
    ensures { IsReading (λ root. root) (service_root (X.variables ctx.now)) result }
{
    if is_switched_off(alloc, ctx)? {
        return Ok(None);
    }
    let named = ctx.variable(alloc, "AWS_EC2_METADATA_SERVICE_ENDPOINT")?;
    root_of(alloc, unless_empty(&named))
}

fn is_switched_off<X: HasVariables>(alloc: Global, ctx: &X) -> Result<bool, NoMemory<()>>
    ensures { IfOk result (λ b. b ≡ is_true (X.variables ctx.now (codes "AWS_EC2_METADATA_DISABLED"))) }
{
    let set = ctx.variable(alloc, "AWS_EC2_METADATA_DISABLED")?;
    Ok(is_true(&set))
}

fn is_true(set: &Option<String>) -> bool
    ensures { result ≡ is_true (option_map string_bytes set.now) }
{
    match set {
        Some(text) => is_same_word(text.as_str(), "true"),
        None => false,
    }
}

fn is_same_word(text: &str, word: &str) -> bool
    ensures { result ≡ is_same_word text.now word.now }
{
    text.eq_ignore_ascii_case(word)
}

/// A text that is not empty.
fn unless_empty(text: &Option<String>) -> Option<&str>
    ensures { option_map (λ t. t.now) result ≡ unless_empty (option_map string_bytes text.now) }
{
    match text {
        Some(text) if !text.is_empty() => Some(text.as_str()),
        _ => None,
    }
}

/// The address that is named, or the usual one.
fn root_of(alloc: Global, named: Option<&str>) -> Result<Option<Octets>, Error>
    ensures { IsReading (λ root. root) (root_of (option_map (λ t. t.now) named.entry)) result }
{
    match named {
        Some(uri) => root_at(alloc, uri),
        None => Ok(Some(Octets::from_slice(alloc, b"http://169.254.169.254")?)),
    }
}

fn root_at(alloc: Global, uri: &str) -> Result<Option<Octets>, Error>
    ensures { IsReading (λ root. root) (root_of (Some uri.now)) result }
{
    let root = without_slash(uri.as_bytes());
    if !is_http(root) {
        return Err(Error::credential_invalid(alloc, NO_ENDPOINT)?);
    }
    Ok(Some(Octets::from_slice(alloc, root)?))
}

fn is_http(uri: &[u8]) -> bool
    ensures { result ≡ is_http uri.now }
{
    uri.starts_with(b"http://") || uri.starts_with(b"https://")
}

fn without_slash(uri: &[u8]) -> &[u8]
    ensures { result.now ≡ without_slash uri.now }
{
    if ends_with_slash(uri) {
        return &uri[..uri.len().saturating_sub(1)];
    }
    uri
}

fn ends_with_slash(uri: &[u8]) -> bool
    ensures { result ≡ is_slash (slice_get uri.now (length uri.now - 1)) }
{
    match uri.last() {
        Some(b) => *b == b'/',
        None => false,
    }
}
