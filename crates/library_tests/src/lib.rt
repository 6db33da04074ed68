//! What no clause of the libraries below the desks says, as tests. They stand in a crate of their own,
//! since a crate with tests is proved twice. Nothing stands on this crate.
#![tactic(auto)]

#[cfg(test)]
mod base_tests;
#[cfg(test)]
mod credentials_tests;
#[cfg(test)]
mod entries;
#[cfg(test)]
mod locks;
#[cfg(test)]
mod pairs;
#[cfg(test)]
mod request_tests;
#[cfg(test)]
mod told;
