//! Calls of a signer, one after another: what no clause of `Signer` says.
//!
//! Two things are not tried, since no caller can bring them about. The state of a call that was cancelled
//! cannot be polled: `cancel` takes it. And call numbers are used up after 2^64 - 1 calls only.
ghost use Rattle.std.specs.Prelude.{◌≡◌, ◌<◌, length, IfSome, IsTrue};

use crate::one_call::told_call;
use crate::source::{Source, Vault, providers_of};
use crate::stamp::Stamp;
use crate::told::{Told, is_told};
use credentials::Providers;
use signer::{AddError, AddRefused, Signer};
use std::alloc::Global;

const URI: &str = "https://e.x/a";

const UNCHANGED: &str = r#", GET https://e.x/a HTTP/1.1 {"pin": "5551234"}"#;

const SIGNED: &str = r#", GET https://e.x/a HTTP/1.1 {"pin": "5551234", "load": "5551001"}"#;

/// A signer with these providers and this service.
pub(crate) fn signer_of(
    alloc: Global,
    sources: &[Source],
    stamp: Stamp,
) -> Option<Signer<Source, Stamp>>
    ensures { IfSome result (λ signer. signer.begun ≡ 0) }
{
    let vault = Vault::new(alloc)?;
    let providers = providers_of(alloc, sources)?;
    Signer::new(alloc, vault, providers, stamp).ok()
}

/// What becomes of a call of a signer with these.
fn told_by(alloc: Global, sources: &[Source], stamp: Stamp, second: i64) -> Option<Told> {
    let mut signer = signer_of(alloc, sources, stamp)?;
    let told = told_call(alloc, &mut signer, URI, second);
    drop(signer);
    told
}

/// Sources, what the service does, the second, and what is told of the call and of its request.
type Row = (&'static [Source], Stamp, i64, &'static str, &'static str);

static ROWS: [Row; 12] = [
    (&[Source::Finds], Stamp::Header, 5, "done", SIGNED),
    (
        &[Source::FindsLater],
        Stamp::HeaderLater,
        5,
        "pending, pending, done",
        SIGNED,
    ),
    (
        &[Source::FindsWithoutMemory],
        Stamp::HeaderWithoutMemory,
        5,
        "out of memory, out of memory, done",
        SIGNED,
    ),
    (
        &[Source::Finds],
        Stamp::MethodAndVersion,
        5,
        "done",
        UNCHANGED,
    ),
    (
        &[Source::Finds],
        Stamp::Uri("https://e.x/b?c"),
        5,
        "done",
        r#", GET https://e.x/b?c HTTP/1.1 {"pin": "5551234"}"#,
    ),
    (
        &[Source::Finds],
        Stamp::Uri(": "),
        5,
        "RequestInvalid invalid uri character []",
        UNCHANGED,
    ),
    (
        &[Source::Finds],
        Stamp::Uri("https://e.x/ 5551234"),
        5,
        "RequestInvalid invalid uri character []",
        UNCHANGED,
    ),
    (
        &[Source::Finds],
        Stamp::Value("5551234\n"),
        5,
        "RequestInvalid failed to parse header value []",
        UNCHANGED,
    ),
    (
        &[Source::Finds],
        Stamp::Fails,
        5,
        "RateLimited no stamp []",
        UNCHANGED,
    ),
    (
        &[Source::Fails],
        Stamp::Header,
        5,
        "RateLimited no source []",
        UNCHANGED,
    ),
    (
        &[Source::Fails, Source::FindsNone],
        Stamp::Header,
        5,
        "CredentialInvalid failed to load signing credential [\"credential_type: Key\"]",
        UNCHANGED,
    ),
    (
        &[Source::Finds],
        Stamp::Header,
        60,
        "CredentialInvalid refreshed signing credential expires before the requested operation deadline \
            [\"credential_type: Key\", \"required_valid_until: 60\"]",
        UNCHANGED,
    ),
];

/// What there was no memory for is kept: the load is begun once, and so is the work. A service changes
/// the URI and the headers alone, and both or neither.
#[test]
fn a_call_is_signed_or_changes_nothing(rt: HostRuntime) {
    for row in &ROWS {
        is_told(&rt, told_by(rt.alloc(), row.0, row.1, row.2), row.3, row.4);
    }
}

/// Handles are added until the first call is begun.
#[test]
fn handles_are_added_before_the_first_call(rt: HostRuntime) {
    let mut signer = signer_of(rt.alloc(), &[Source::Finds], Stamp::Header).expect(&rt, "memory");
    assert!(rt; added(rt.alloc(), &mut signer) == [Ok(1), Ok(2), Ok(3)]);
    drop(told_call(rt.alloc(), &mut signer, URI, 5));
    assert!(rt; added(rt.alloc(), &mut signer) == [Err(AddError::Late); 3]);
    drop(signer);
}

/// Adds a handle with another context, one with another service and one with another provider.
fn added(alloc: Global, signer: &mut Signer<Source, Stamp>) -> [Result<u32, AddError>; 3] {
    [
        with_context(alloc, signer),
        with_service(signer),
        with_provider(signer),
    ]
}

fn with_context(alloc: Global, signer: &mut Signer<Source, Stamp>) -> Result<u32, AddError> {
    let vault = Vault::new(alloc);
    match vault {
        Some(vault) if has_handle_and_room(signer) => number_or_cause(signer.with_context(
            0, vault,
        )),
        _ => Err(AddError::OutOfMemory),
    }
}

fn with_service(signer: &mut Signer<Source, Stamp>) -> Result<u32, AddError> {
    if !has_handle_and_room(signer) {
        return Err(AddError::OutOfMemory);
    }
    number_or_cause(signer.with_request_signer(0, Stamp::Header))
}

fn with_provider(signer: &mut Signer<Source, Stamp>) -> Result<u32, AddError> {
    if !has_handle_and_room(signer) {
        return Err(AddError::OutOfMemory);
    }
    number_or_cause(signer.with_credential_provider(0, Providers::Single(Source::Finds)))
}

fn has_handle_and_room(signer: &Signer<Source, Stamp>) -> bool
    ensures { IsTrue result
        → (0 < length signer.now.desk.handles) × (length signer.now.desk.handles < 4294967295) }
{
    let handles = signer.desk().handles();
    0 < handles && handles < u32::MAX
}

/// The number of a handle, or why it was not added.
pub(crate) fn number_or_cause<T: Drop>(added: Result<u32, AddRefused<T>>) -> Result<u32, AddError> {
    match added {
        Ok(number) => Ok(number),
        Err(refused) => Err(refused.why),
    }
}
