//! The keys of the header maps that the bridge makes.
ghost use Rattle.std.specs.Prelude.{◌≡◌, []};
ghost use Rattle.sign_request.specs.Keys.{drawn};

use http::header::HeaderMap;
use std::alloc::Global;
use std::hash::RandomState;

/// What the bridge hashes the names of headers with where they collide.
///
/// Whoever knows the hash can pick names that collide under it, and the time for a map of such
/// names grows with the square of their number. With keys that nobody outside knows it does not.
/// The default has none, for names that the program itself writes. No answer depends on the keys.
#[derive(Clone, Copy, Debug, Default)]
pub struct HeaderSeeds {
    keys: Option<RandomState>,
}

impl HeaderSeeds {
    /// Keys that were drawn at random, once for a program: `RandomState::new`.
    pub fn new(keys: RandomState) -> HeaderSeeds
        ensures { result ≡ drawn keys }
    {
        HeaderSeeds { keys: Some(keys) }
    }

    /// An empty map with these keys. It takes no memory.
    pub(crate) fn empty_map(self, alloc: Global) -> HeaderMap
        ensures { result ≡ [] }
    {
        match self.keys {
            Some(keys) => HeaderMap::with_hasher(alloc, keys),
            None => HeaderMap::new(alloc),
        }
    }
}
