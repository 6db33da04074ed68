//! What no clause of `signctl_core` and of the crates of its commands says, as tests: faults, limits, debug
//! forms, and what a clock sees. They stand in a crate of their own, since a crate with tests is proved
//! twice. Nothing stands on this crate. Whole inputs with their answers are rows of `command_rows`.
#![tactic(auto)]

#[cfg(test)]
mod driver;
#[cfg(test)]
mod faults;
#[cfg(test)]
mod format;
#[cfg(test)]
mod limits;
#[cfg(test)]
mod load;
#[cfg(test)]
mod ran;
#[cfg(test)]
mod times;
