//! The book of a signer: a desk beside the journal of its events and replies, and passes with the receipts of
//! their steps; and a history without end, volume by volume. Nothing here takes a lock or waits.
#![tactic(auto)]

mod book;
mod check;
mod comparisons;
mod doubles;
mod journaled_desk;
mod next_volume;
mod pass;
mod room;
mod settled;
mod volume;

pub use book::Book;
pub use next_volume::{NextVolume, RotateError, RotateRefused, VolumeError, VolumeRefused};
pub use pass::{Pass, Receipt};
pub use sequential_signer::Entry;
pub use settled::{CloseError, CloseRefused, Settled};
pub use volume::Volume;
