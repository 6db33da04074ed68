//! The counter of a history, and what was seen of it.
ghost use Rattle.std.specs.Prelude.{◌≡◌, ◌++◌, ◌∷◌, [], IfSome};
ghost use mathlib.Core.List.{IsPrefix};
ghost use Rattle.shared_history.specs.Counting.{counter_of};

use crate::rule::{Add, Count, Naming, Nothing};
use logbook::{Offer, Seen, Start, Word};
use std::marker::{Model, PhantomData};

/// So many entries are never reached: at a million a second they take a hundred thousand years.
const MOST: u64 = 1 << 62;

/// An empty history, which has no name yet.
pub struct Opened<E> {
    word: Word<E, u64, Count<E>>,
    seen: Seen<E, u64, Count<E>>,
    pub ghost empty: { seen.log ≡ [] },
    pub ghost counts: { word ≡ counter_of seen.book },
}

impl<E> Opened<E> {
    /// It takes no memory.
    pub fn new() -> Opened<E> {
        let (seen, mut first, _second) = Seen::open(Start::alone(), 0, 0);
        Opened {
            word: Word::tracked(0, &mut first),
            seen,
        }
    }

    /// The history's counter under this name, and a front that has seen nothing.
    pub fn named<N: Naming>(self) -> (Counter<E, N>, Front<E, N>)
        requires { self.seen.book ≡ N.book }
        ensures { result.1 ≡ [] }
    {
        let Opened { word, seen } = self;
        let counter = Counter {
            word,
            of: PhantomData,
        };
        let front = Front {
            count: 0,
            seen,
            of: PhantomData,
        };
        (counter, front)
    }
}

/// The number of a history's entries, which threads share.
#[derive(Drop)]
pub struct Counter<E, N: Naming> {
    word: Word<E, u64, Count<E>>,
    of: PhantomData<N>,
    ghost counts: { word ≡ counter_of N.book },
}

/// A beginning of the history that was seen. Contracts see it as its entries.
#[derive(Drop)]
pub struct Front<E, N: Naming> {
    count: u64,
    seen: Seen<E, u64, Count<E>>,
    of: PhantomData<N>,
}

impl<E, N: Naming> Model for Front<E, N> {
    ghost use Rattle.std.specs.Prelude.{◌≡◌, List, length};

    ghost Value = { List E };

    ghost view = { λ front. front.seen.log };

    ghost invariant = { λ front. (front.count ≡ length front.seen.log) × (front.seen.book ≡ N.book) };
}

impl<E, N: Naming> Front<E, N> {
    /// A copy.
    pub fn again(&self) -> Front<E, N>
        ensures { result ≡ self.now }
    {
        Front {
            count: self.count,
            seen: self.seen.again(),
            of: PhantomData,
        }
    }

    /// Puts the entry behind all that was seen, if the history is no longer than that. Then it has what the
    /// other front has seen too.
    pub fn try_add(
        &self,
        counter: &Counter<E, N>,
        other: &Front<E, N>,
        entry: &E,
    ) -> Option<Front<E, N>>
        ensures added { IfSome result (λ front. front ≡ self.now ++ entry.now ∷ []) }
        ensures other { IfSome result (λ front. IsPrefix other.now self.now) }
    {
        if self.count >= MOST {
            return None;
        }
        let mut seen = self.seen.again();
        seen.learn(&other.seen);
        let mut offer: Offer<E, u64, Count<E>, Nothing> = seen.plain::<Nothing, E, Add>(entry);
        let mut pen = seen.no_pen();
        let next = self.count + 1;
        let found = counter
            .word
            .compare_exchange::<Add, Nothing>(self.count, next, &mut seen, &mut offer, &mut pen);
        if found != self.count {
            return None;
        }
        Some(Front {
            count: next,
            seen,
            of: PhantomData,
        })
    }
}
