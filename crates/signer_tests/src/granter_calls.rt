//! Calls of a granter on one thread: what no clause of `Granter` says.
ghost use Rattle.std.specs.Prelude.{◌<◌, length, IfSome, IsTrue};
ghost use Rattle.granter.specs.GranterObjects.{meanings_of};
ghost use Rattle.granter.specs.IssuedBy.{IsGrantIssuedBy};

use crate::issuer::Issuer;
use crate::key::{Key, at};
use crate::signer_calls::number_or_cause;
use crate::source::{Source, Vault, providers_of};
use crate::told::{Told, is_told};
use credentials::{GrantCredential, ProvideCredential, Providers};
use granter::{AddError, Grant, GrantPoll, Granter};
use sequential_signer::SigningCredential;
use sign_base::Timestamp;
use std::alloc::Global;

type KeyGranter = Granter<Source, Issuer>;

/// A granter with these providers and this service.
fn granter_of(alloc: Global, sources: &[Source], issuer: Issuer) -> Option<KeyGranter> {
    let vault = Vault::new(alloc)?;
    let providers = providers_of(alloc, sources)?;
    Granter::new(alloc, vault, providers, issuer).ok()
}

/// Begins a call under this handle and tells of its polls, three at most.
fn poll_thrice<P, G>(granter: &mut Granter<P, G>, handle: u32, now: Timestamp, told: &mut Told)
where
    P: ProvideCredential<Credential = Key>,
    G: GrantCredential<Credential = Key, Ctx = P::Ctx>,
{
    drop(polled(granter, handle, now, told));
}

/// Tells of three polls. Hands out the state where the call goes on after these.
fn polled<P, G>(
    granter: &mut Granter<P, G>,
    handle: u32,
    now: Timestamp,
    told: &mut Told,
) -> Option<Grant<P, G>>
where
    P: ProvideCredential<Credential = Key>,
    G: GrantCredential<Credential = Key, Ctx = P::Ctx>,
{
    if granter.desk().handles() <= handle {
        return None;
    }
    let begun = granter.grant(handle, None).ok()?;
    let waiting = poll(granter, begun, now, told)?;
    let again = poll(granter, waiting, now, told)?;
    poll(granter, again, now, told)
}

/// Polls a call and tells its answer, and whether a debug form shows a secret then. Hands out the state
/// where the call goes on.
fn poll<P, G>(
    granter: &mut Granter<P, G>,
    grant: Grant<P, G>,
    now: Timestamp,
    told: &mut Told,
) -> Option<Grant<P, G>>
where
    P: ProvideCredential<Credential = Key>,
    G: GrantCredential<Credential = Key, Ctx = P::Ctx>,
    requires { IsGrantIssuedBy (meanings_of P.ProvideCredential G.GrantCredential.own) granter.old grant }
    ensures { IfSome result
        (IsGrantIssuedBy (meanings_of P.ProvideCredential G.GrantCredential.own) granter.new) }
{
    let answer = granter.poll(grant, now);
    told.push_secrets(&answer);
    told.push_secrets(granter);
    match answer {
        GrantPoll::Pending(state) => {
            told.push("pending, ");
            Some(state)
        }
        GrantPoll::OutOfMemory(state) => {
            told.push("out of memory, ");
            Some(state)
        }
        GrantPoll::Given(key) => {
            let _ = write!(told.text, "given {}", key.number);
            None
        }
        GrantPoll::Refused(why) => {
            told.push_error(why.into_error(told.alloc(), Key::NAME).ok());
            None
        }
    }
}

/// What becomes of a call at this second of a granter with these.
fn told_by(alloc: Global, sources: &[Source], issuer: Issuer, second: i64) -> Option<Told> {
    let now = at(alloc, second)?;
    let mut granter = granter_of(alloc, sources, issuer)?;
    let mut told = Told::new(alloc);
    poll_thrice(&mut granter, 0, now, &mut told);
    drop(granter);
    Some(told)
}

/// Sources, what the granting service answers, the second, and what is told of the call.
type Row = (&'static [Source], Issuer, i64, &'static str);

static ROWS: [Row; 10] = [
    (&[Source::Finds], Issuer::Makes, 5, "given 5551101"),
    (
        &[Source::FindsLater],
        Issuer::Makes,
        5,
        "pending, given 5551101",
    ),
    (
        &[Source::FindsLater],
        Issuer::MakesLater,
        5,
        "pending, pending, given 5551101",
    ),
    (
        &[Source::FindsWithoutMemory],
        Issuer::MakesWithoutMemory,
        5,
        "out of memory, out of memory, given 5551101",
    ),
    (
        &[Source::Fails, Source::FindsNone, Source::FindsLater],
        Issuer::Makes,
        5,
        "pending, given 5551103",
    ),
    (
        &[Source::FindsNone],
        Issuer::Makes,
        5,
        "CredentialInvalid failed to load source credential [\"credential_type: Key\"]",
    ),
    (
        &[Source::Finds],
        Issuer::Makes,
        60,
        "CredentialInvalid refreshed source credential expires before the granting deadline \
            [\"credential_type: Key\", \"required_valid_until: 60\"]",
    ),
    (
        &[Source::Finds],
        Issuer::MakesShort,
        5,
        "CredentialInvalid granted credential is not currently usable \
            [\"credential_type: Key\", \"validated_at: 5\"]",
    ),
    (
        &[Source::Fails],
        Issuer::Makes,
        5,
        "RateLimited no source []",
    ),
    (
        &[Source::Finds],
        Issuer::Fails,
        5,
        "RateLimited no grant []",
    ),
];

/// What is made is given, and each refusal becomes an error.
#[test]
fn calls_are_given_a_key_or_refused(rt: HostRuntime) {
    for row in &ROWS {
        is_told(&rt, told_by(rt.alloc(), row.0, row.1, row.2), row.3, "");
    }
}

/// A call begins one load and one work: those of the next call, on another cache, have the next numbers.
#[test]
fn a_call_begins_one_load_and_one_work(rt: HostRuntime) {
    is_told(
        &rt,
        told_by_two_caches(rt.alloc()),
        "given 5551101, given 5551202",
        "",
    );
}

fn told_by_two_caches(alloc: Global) -> Option<Told> {
    let now = at(alloc, 5)?;
    let mut granter = granter_of(alloc, &[Source::Finds], Issuer::Makes)?;
    let mut told = Told::new(alloc);
    poll_both_caches(&mut granter, now, &mut told);
    drop(granter);
    Some(told)
}

fn poll_both_caches(granter: &mut KeyGranter, now: Timestamp, told: &mut Told) {
    let other = with_provider(granter).unwrap_or(0);
    poll_thrice(granter, 0, now, told);
    told.push(", ");
    poll_thrice(granter, other, now, told);
}

/// Handles are added until the first call is begun.
#[test]
fn handles_are_added_before_the_first_call(rt: HostRuntime) {
    let mut granter = granter_of(rt.alloc(), &[Source::Finds], Issuer::Makes).expect(&rt, "memory");
    assert!(rt; added(rt.alloc(), &mut granter) == [Ok(1), Ok(2), Ok(3)]);
    let now = at(rt.alloc(), 5).expect(&rt, "a moment");
    poll_thrice(&mut granter, 0, now, &mut Told::new(rt.alloc()));
    assert!(rt; added(rt.alloc(), &mut granter) == [Err(AddError::Late); 3]);
    drop(granter);
}

/// Adds a handle with another context, one with another service and one with another provider.
fn added(alloc: Global, granter: &mut KeyGranter) -> [Result<u32, AddError>; 3] {
    [
        with_context(alloc, granter),
        with_service(granter),
        with_provider(granter),
    ]
}

fn with_context(alloc: Global, granter: &mut KeyGranter) -> Result<u32, AddError> {
    match Vault::new(alloc) {
        Some(vault) if has_handle_and_room(granter) => number_or_cause(granter.with_context(
            0, vault,
        )),
        _ => Err(AddError::OutOfMemory),
    }
}

fn with_service(granter: &mut KeyGranter) -> Result<u32, AddError> {
    if !has_handle_and_room(granter) {
        return Err(AddError::OutOfMemory);
    }
    number_or_cause(granter.with_credential_granter(0, Issuer::Makes))
}

fn with_provider(granter: &mut KeyGranter) -> Result<u32, AddError> {
    if !has_handle_and_room(granter) {
        return Err(AddError::OutOfMemory);
    }
    number_or_cause(granter.with_credential_provider(0, Providers::Single(Source::Finds)))
}

fn has_handle_and_room(granter: &KeyGranter) -> bool
    ensures { IsTrue result
        → (0 < length granter.now.desk.handles) × (length granter.now.desk.handles < 4294967295) }
{
    let handles = granter.desk().handles();
    0 < handles && handles < u32::MAX
}
