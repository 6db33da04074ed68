//! Signers, granters, an auditor and the lock of a cache on worked examples, as tests. Nothing stands on this
//! crate.
#![tactic(auto)]

#[cfg(test)]
mod audits;
#[cfg(test)]
mod broker;
#[cfg(test)]
mod calls;
#[cfg(test)]
mod eight_calls;
#[cfg(test)]
mod granter_calls;
#[cfg(test)]
mod issuer;
#[cfg(test)]
mod key;
#[cfg(test)]
mod one_call;
#[cfg(test)]
mod one_signer;
#[cfg(test)]
mod signer_calls;
#[cfg(test)]
mod source;
#[cfg(test)]
mod stamp;
#[cfg(test)]
mod told;
#[cfg(test)]
mod waiting;
#[cfg(test)]
mod worked_service;
