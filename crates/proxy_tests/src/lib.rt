//! A signing proxy, tried: threads that sign requests for AWS by one concurrent signer over objects, which
//! docs/GUIDE.md walks through. Signatures are those of other implementations.
#![tactic(auto)]

#[cfg(test)]
mod proxy;
#[cfg(test)]
mod proxy_clock;
#[cfg(test)]
mod runs;
#[cfg(test)]
mod sources;
