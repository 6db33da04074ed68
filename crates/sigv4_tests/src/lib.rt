//! Signature Version 4, as tests of what no clause says: values of other implementations, printed texts,
//! and that each call succeeds with ample memory; and a gateway, an example that docs/GUIDE.md walks through.
//! Nothing stands on this crate. Requests with their signatures are rows of `command_rows`.
#![tactic(auto)]

#[cfg(test)]
mod checked_heads;
#[cfg(test)]
mod claims;
#[cfg(test)]
mod everyday;
#[cfg(test)]
mod gateway;
#[cfg(test)]
mod links;
#[cfg(test)]
mod many_headers;
#[cfg(test)]
mod other_readings;
#[cfg(test)]
mod refusals;
#[cfg(test)]
mod secrets;
#[cfg(test)]
mod service;
#[cfg(test)]
mod signed_heads;
#[cfg(test)]
mod suite;
#[cfg(test)]
mod told;
