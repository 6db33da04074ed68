//! What the tables of a desk tell of themselves.
ghost use Rattle.std.specs.Prelude.{◌≡◌, ◌<◌, IfSome, length, option_and_then, option_copied, slice_get};

use crate::tables::Tables;
use sequential_signer::{DeadlineRule, Loader, SigningCredential};
use std::alloc::Global;

impl<K: SigningCredential, D: DeadlineRule<Credential = K>, Q: Drop, H: Drop> Tables<K, D, Q, H> {
    /// The allocator of the tables.
    pub fn alloc(&self) -> Global {
        self.alloc
    }

    /// The number of caches.
    pub fn cache_count(&self) -> usize
        ensures { result ≡ length self.now.loaders }
    {
        self.loaders.len()
    }

    /// The number of rules.
    pub fn rule_count(&self) -> usize
        ensures { result ≡ length self.now.rules }
    {
        self.rules.len()
    }

    /// The number of handles.
    pub fn handle_count(&self) -> usize
        ensures { result ≡ length self.now.handles }
    {
        self.handles.len()
    }

    /// The number of live calls.
    pub fn live_count(&self) -> usize
        ensures { result ≡ length self.now.calls }
    {
        self.calls.len()
    }

    /// The loader of a cache that is there.
    pub fn loader_at(&self, cache: u32) -> Loader
        requires { cache < length self.now.loaders }
        ensures { IfSome (slice_get self.now.loaders cache) (λ loader. result ≡ loader) }
    {
        self.loaders[cache as usize]
    }

    /// The credential that the cache holds, if there is such a cache and it holds one.
    pub fn cached(&self, cache: u32) -> Option<&K>
        ensures { option_copied result ≡ option_and_then (λ held. held) (slice_get self.now.caches cache) }
    {
        self.caches.get(cache as usize)?.as_ref()
    }

    /// The rule of the handle, if there is such a handle.
    pub fn rule_of(&self, handle: u32) -> Option<&D>
        ensures { option_copied result
            ≡ option_and_then (λ h. slice_get self.now.rules h.rule) (slice_get self.now.handles handle) }
    {
        let found = self.handle_at(handle)?;
        self.rules.get(found.rule as usize)
    }
}
