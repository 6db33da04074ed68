//! The one history of a signer, as its threads know it.
ghost use Rattle.std.specs.Prelude.{◌≡◌, ◌++◌, ◌∷◌, []};
ghost use mathlib.Core.List.{IsPrefix};
ghost use Rattle.sequential_signer.specs.Policy.{policy_of};
ghost use Rattle.sequential_signer.specs.Legal.{IsLegal};

use sequential_signer::{DeadlineRule, Entry, SigningCredential};
use shared_history::{Counter, Front, Naming};
use std::marker::{Brand, Model, PhantomData};
use std::sync::Wait;
use std::thread;

/// Which history it is, and the setup that its signer has. The call that opens one picks both.
pub trait SetUp<D>: Naming {
    ghost use Rattle.sequential_signer.specs.Setup.{Setup};

    ghost setup: { Setup D };
}

impl<D> SetUp<D> for Brand {
    ghost use Rattle.std.specs.Prelude.{[]};

    ghost setup = { record { loaders = []; rules = []; handles = [] } };
}

/// A beginning of the history that was seen: a legal transcript of the setup. It takes eight bytes.
#[derive(Drop)]
pub struct History<K: SigningCredential, D: DeadlineRule<Credential = K>, N: SetUp<D>> {
    front: Front<Entry<K>, N>,
    of: PhantomData<D>,
}

impl<K: SigningCredential, D: DeadlineRule<Credential = K>, N: SetUp<D>> Model
    for History<K, D, N> {
    ghost use Rattle.std.specs.Prelude.{List};
    ghost use Rattle.sequential_signer.specs.declared.event.Entry.{Entry};

    ghost Value = { List (Entry K) };

    ghost use Rattle.sequential_signer.specs.Policy.{policy_of};
    ghost use Rattle.sequential_signer.specs.Legal.{IsLegal};

    ghost view = { λ history. history.front };

    ghost invariant = { λ history. IsLegal (policy_of K.valid K.valid_at D.deadline) N.setup history.front };
}

impl<K: SigningCredential, D: DeadlineRule<Credential = K>, N: SetUp<D>> History<K, D, N> {
    /// The history of a front that has seen nothing.
    pub(crate) fn new(front: Front<Entry<K>, N>) -> History<K, D, N>
        requires { front ≡ [] }
        ensures { result ≡ [] }
    {
        History {
            front,
            of: PhantomData,
        }
    }

    /// A copy.
    pub fn again(&self) -> History<K, D, N>
        ensures same { result ≡ self.now }
        ensures legal { IsLegal (policy_of K.valid K.valid_at D.deadline) N.setup self.now }
    {
        History {
            front: self.front.again(),
            of: PhantomData,
        }
    }

    /// The history with this entry behind it, which is all that the other has seen. It is called under the
    /// lock, under which alone entries are added, so its first attempt succeeds.
    pub(crate) fn with<R: Wait>(
        &self,
        rt: &R,
        counter: &Counter<Entry<K>, N>,
        other: &History<K, D, N>,
        entry: &Entry<K>,
    ) -> History<K, D, N>
        requires legal { IsLegal (policy_of K.valid K.valid_at D.deadline) N.setup
            (self.now ++ entry.now ∷ []) }
        ensures added { result ≡ self.now ++ entry.now ∷ [] }
        ensures other { IsPrefix other.now self.now }
    {
        for _ in rt.forever() {
            if let Some(front) = self.front.try_add(counter, &other.front, entry) {
                return History {
                    front,
                    of: PhantomData,
                };
            }
            thread::yield_now();
        }
        unreachable!()
    }
}
