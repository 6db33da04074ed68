//! What the driver of a desk keeps of a load between two polls.
use sign_base::Error;

/// The load of the provider that was asked last.
#[derive(Drop)]
pub enum LoadState<K, L> {
    /// There was no memory yet to start it.
    Unstarted,
    Started(L),
    /// What it found, which the desk had no memory to take.
    Found(K),
}

/// What a provider answered to a poll of its load.
#[derive(Drop)]
pub enum LoadAnswer<K, L> {
    Pending(L),
    OutOfMemory(LoadState<K, L>),
    Found(K),
    Missing,
    Failed(Error),
}
