//! What threads share, tried: books, shared signers, signing pools, and the commands `pool` and `queue`, by
//! workers with gates of several kinds, and by workers that run beside each other.
#![tactic(auto)]

#[cfg(test)]
mod batches;
#[cfg(test)]
mod closing;
#[cfg(test)]
mod commands;
#[cfg(test)]
mod concurrent_calls;
#[cfg(test)]
mod gates;
#[cfg(test)]
mod moments;
#[cfg(test)]
mod refused_memory;
#[cfg(test)]
mod report;
#[cfg(test)]
mod rotations;
#[cfg(test)]
mod seats;
#[cfg(test)]
mod serving;
#[cfg(test)]
mod signers;
#[cfg(test)]
mod sleepers;
#[cfg(test)]
mod stands;
#[cfg(test)]
mod steps;
#[cfg(test)]
mod threads;
#[cfg(test)]
mod waiting_calls;
