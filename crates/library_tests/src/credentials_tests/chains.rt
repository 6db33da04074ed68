//! What a chain answers, how many of its providers it asks, and that it shows none of them.
use super::providers::{Asked, Says};
use crate::told::{hides_as, is_told};
use credentials::{ProvideCredential, ProvideCredentialChain};
use fixtures::Key;
use sequential_signer::SigningCredential;
use std::alloc::Global;
use std::process::Abort;

type Chain = ProvideCredentialChain<Says>;

type Load = <Chain as ProvideCredential>::Load;

/// A chain of these providers, the first of which is put in front last.
fn chain_of(alloc: Global, says: &[Says]) -> Option<Chain> {
    let mut chain = ProvideCredentialChain::new(alloc);
    for says in says.iter().skip(1) {
        chain = chain.push(*says).ok()?;
    }
    match says.first() {
        Some(says) => chain.push_front(*says).ok(),
        None => Some(chain),
    }
}

/// What a load of a chain answers at a poll, and how many providers were asked.
fn polled(alloc: Global, chain: &Chain, ctx: &Asked, load: &mut Load) -> Option<String> {
    let answer = chain.poll_load(alloc, ctx, load);
    let asked = ctx.count.get();
    format!(in alloc; "{answer:?}, asked {asked}").ok()
}

/// Whether the polls of a load of a row's chain answer so.
fn answers(rt: &impl Abort, alloc: Global, row: &(&[Says], &[&str])) {
    let chain = chain_of(alloc, row.0).expect(rt, "memory");
    let ctx = Asked::new();
    are_polled(rt, alloc, &chain, &ctx, row.1);
    drop(chain);
}

fn are_polled(rt: &impl Abort, alloc: Global, chain: &Chain, ctx: &Asked, polls: &[&str]) {
    let mut load = chain.provide_credential(alloc, ctx).expect(rt, "memory");
    for wanted in polls {
        is_told(rt, polled(alloc, chain, ctx, &mut load), *wanted);
    }
}

/// What the providers say, and what each poll answers. A chain answers what is found first, asks no provider
/// behind that, waits for a provider that is pending, and goes on from there.
static ANSWERS: [(&[Says], &[&str]); 6] = [
    (
        &[Says::Failed, Says::Missing, Says::Found(1), Says::Found(2)],
        &["Ready(Some(1)), asked 3"],
    ),
    (&[], &["Ready(None), asked 0"]),
    (
        &[Says::Found(0), Says::Failed, Says::Found(2)],
        &["Ready(Some(0)), asked 1"],
    ),
    (&[Says::Failed, Says::Failed], &["Ready(None), asked 2"]),
    (&[Says::Missing], &["Ready(None), asked 1"]),
    (
        &[Says::Missing, Says::Later(5)],
        &["Pending, asked 2", "Ready(Some(5)), asked 2"],
    ),
];

#[test]
fn chains_answer_their_first_found(rt: HostRuntime) {
    for row in &ANSWERS {
        answers(&rt, rt.alloc(), row);
    }
}

#[test]
fn a_chain_shows_its_number_of_providers(rt: HostRuntime) {
    let says = [Says::Found(5551234), Says::Missing];
    let chain = chain_of(rt.alloc(), &says).expect(&rt, "memory");
    let wanted = "ProvideCredentialChain { providers_count: 2 }";
    hides_as(&rt, rt.alloc(), &chain, wanted);
}

/// A credential that may be absent has the name of the type within.
#[test]
fn an_absent_credential_has_a_name(rt: HostRuntime) {
    assert!(rt; <Option<Key> as SigningCredential>::NAME == "Key");
}
