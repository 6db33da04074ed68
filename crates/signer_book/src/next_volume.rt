//! What rotating a volume gives: its journal, closed, and the next volume; or the first cause for which the
//! history is not gone on with, with everything handed back.
use crate::pass::Pass;
use crate::settled::CloseError;
use crate::volume::Volume;
use sequential_signer::{DeadlineRule, Entry, SigningCredential};
use sign_desk::Desk;

/// A journal that is the steps of these passes and no others, and the volume that goes on behind it.
#[derive(Drop)]
pub struct NextVolume<K: SigningCredential, D: DeadlineRule<Credential = K>> {
    /// The next volume, opened at the desk as it was when the journal ended.
    pub volume: Volume<K, D>,
    /// A desk like it, which is the plan of the next volume.
    pub plan: Desk<K, D>,
    pub journal: Vec<Entry<K>>,
    pub passes: Vec<Pass<K>>,
}

/// Why a volume is not closed: the first of these that holds, in this order.
#[derive(Clone, Copy, Debug, PartialEq, Eq)]
pub enum VolumeError {
    /// The plan is not the desk that the volume was opened at: its setup differs, the credential of a cache,
    /// the greatest number begun under a handle, or whether a call was begun; or a call of it is live.
    Plan,
    /// As a book would not be closed.
    Close(CloseError),
}

/// Why a history is not gone on with: the first of these that holds, in this order.
#[derive(Clone, Copy, Debug, PartialEq, Eq)]
pub enum RotateError {
    /// The plan is not the desk that the volume was opened at.
    Plan,
    /// So many calls of the volume's desk are live.
    Live { calls: u64 },
    /// As a book would not be closed.
    Close(CloseError),
    /// An allocation failed.
    OutOfMemory,
}

/// A volume that was not closed: everything is handed back, so that the cause can be seen in it.
#[derive(Drop)]
pub struct VolumeRefused<K: SigningCredential, D: DeadlineRule<Credential = K>> {
    pub volume: Volume<K, D>,
    pub plan: Desk<K, D>,
    pub passes: Vec<Pass<K>>,
    pub why: VolumeError,
}

/// A volume that was not rotated: everything is handed back, as it was.
#[derive(Drop)]
pub struct RotateRefused<K: SigningCredential, D: DeadlineRule<Credential = K>> {
    pub volume: Volume<K, D>,
    pub plan: Desk<K, D>,
    pub passes: Vec<Pass<K>>,
    pub why: RotateError,
}
