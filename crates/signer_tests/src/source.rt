//! A provider of the tests, which answers as it says, and what it works in.
ghost use Rattle.std.specs.Prelude.{⊤, IfSome};
ghost use Rattle.desk_driver.specs.ProviderList.{AreFew};

use crate::key::{Key, at};
use credentials::{Polled, ProvideCredential, ProvideCredentialChain, Providers};
use sign_base::{Error, NoMemory, Timestamp};
use std::alloc::Global;
use std::cell::Cell;

/// The number before that of the first load's key. No text may show a number that begins so.
const BEFORE: u64 = 5551000;

/// The moment at which all that is found expires, the number of the load that was begun last, and how many
/// credentials an issuer began to make.
#[derive(Drop)]
pub(crate) struct Vault {
    pub(crate) expires: Timestamp,
    loads: Cell<u64>,
    works: Cell<u64>,
}

impl Vault {
    /// Its keys expire at second 60.
    pub(crate) fn new(alloc: Global) -> Option<Vault> {
        Some(Vault {
            expires: at(alloc, 60)?,
            loads: Cell::new(BEFORE),
            works: Cell::new(0),
        })
    }

    /// The number of one more work, from 1.
    pub(crate) fn next_work(&self) -> u64 {
        let number = self.works.get().saturating_add(1);
        self.works.set(number);
        number
    }
}

/// What a provider answers.
#[derive(Clone, Copy)]
pub(crate) enum Source {
    /// A key with the number of its load, at the first poll.
    Finds,
    /// The same at the second poll.
    FindsLater,
    /// In place of its first answer it has no memory.
    FindsWithoutMemory,
    FindsNone,
    Fails,
    /// At the second poll.
    FailsLater,
    /// Its first load fails at the second poll, and each further one finds a key.
    FailsOnce,
}

/// A load: its number, and whether it was polled.
#[derive(Clone, Copy)]
pub(crate) struct Load {
    number: u64,
    polled: bool,
}

impl ProvideCredential for Source {
    type Credential = Key;

    type Ctx = Vault;

    type Load = Load;

    ghost started = { λ source vault load. ⊤ };

    ghost ready = { λ source vault load. ⊥ };

    ghost gives = { λ source vault answer. ⊤ };

    fn provide_credential(&self, _alloc: Global, vault: &Vault) -> Result<Load, NoMemory<()>> {
        let number = vault.loads.get().saturating_add(1);
        vault.loads.set(number);
        Ok(Load {
            number,
            polled: false,
        })
    }

    fn poll_load(&self, alloc: Global, vault: &Vault, load: &mut Load) -> Polled<Option<Key>> {
        let polled = load.polled;
        load.polled = true;
        match self {
            Source::FindsLater | Source::FailsLater | Source::FailsOnce if !polled =>
                Polled::Pending,
            Source::FindsWithoutMemory if !polled => Polled::OutOfMemory,
            Source::FindsNone => Polled::Ready(None),
            Source::Fails | Source::FailsLater => failure(alloc, "no source"),
            Source::FailsOnce if load.number == BEFORE + 1 => failure(alloc, "no source"),
            _ => Polled::Ready(Some(Key {
                number: load.number,
                expires: vault.expires,
            })),
        }
    }
}

/// The failure of a load or of a work.
pub(crate) fn failure<T>(alloc: Global, message: &str) -> Polled<T> {
    match Error::rate_limited(alloc, message) {
        Ok(error) => Polled::Failed(error),
        Err(_) => Polled::OutOfMemory,
    }
}

/// One provider, or a chain of several.
pub(crate) fn providers_of(alloc: Global, sources: &[Source]) -> Option<Providers<Source>>
    ensures { IfSome result (λ providers. AreFew providers) }
{
    match sources {
        [source] => Some(Providers::Single(*source)),
        _ => chain_of(alloc, sources),
    }
}

fn chain_of(alloc: Global, sources: &[Source]) -> Option<Providers<Source>>
    ensures { IfSome result (λ providers. AreFew providers) }
{
    if sources.len() > 8 {
        return None;
    }
    let sources = Vec::from_slice(alloc, sources).ok()?;
    Some(Providers::Chain(ProvideCredentialChain::from_vec(sources)))
}
