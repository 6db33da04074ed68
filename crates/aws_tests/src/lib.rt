//! AWS's providers, its service and its Security Token Service, as tests of what no clause says: values of
//! other implementations, printed texts, and that each call succeeds with ample memory; and an example that
//! docs/GUIDE.md walks through, a signer with the key of the environment. Nothing stands on this crate.
#![tactic(auto)]

#[cfg(test)]
mod containers;
#[cfg(test)]
mod documents;
#[cfg(test)]
mod environment_key;
#[cfg(test)]
mod instances;
#[cfg(test)]
mod list_users;
#[cfg(test)]
mod processes;
#[cfg(test)]
mod profile_processes;
#[cfg(test)]
mod refused_memory;
#[cfg(test)]
mod roles;
#[cfg(test)]
mod session_heads;
#[cfg(test)]
mod session_refresh;
#[cfg(test)]
mod session_signer;
#[cfg(test)]
mod shared_files;
#[cfg(test)]
mod suite;
#[cfg(test)]
mod told;
