//! How often calls of a cache were replied to, by the kind of the reply.
ghost use Rattle.std.specs.Prelude.{◌≡◌};
ghost use Rattle.sign_audit.specs.Counts.{counted};

use sequential_signer::Reply;

/// The numbers of replies at one cache. Each stands still at the type's end.
#[derive(Clone, Copy, Debug, PartialEq, Eq)]
pub struct Counts {
    /// A provider was asked.
    pub asks: u64,
    /// A credential was handed out.
    pub signs: u64,
    /// A call was refused, by whatever cause.
    pub refused: u64,
    /// A call was cancelled.
    pub cancelled: u64,
    /// An allocation failed.
    pub missed: u64,
}

impl Counts {
    pub(crate) fn new() -> Counts
        ensures { result ≡ record { asks = 0; signs = 0; refused = 0; cancelled = 0; missed = 0 } }
    {
        Counts {
            asks: 0,
            signs: 0,
            refused: 0,
            cancelled: 0,
            missed: 0,
        }
    }

    pub(crate) fn add<K>(&mut self, reply: &Reply<K>)
        ensures { self.new ≡ counted reply.now self.old }
    {
        match reply {
            Reply::Ask { .. } => self.asks = self.asks.saturating_add(1),
            Reply::Sign { .. } => self.signs = self.signs.saturating_add(1),
            Reply::Refused { .. } => self.refused = self.refused.saturating_add(1),
            Reply::Cancelled { .. } => self.cancelled = self.cancelled.saturating_add(1),
            Reply::OutOfMemory => self.missed = self.missed.saturating_add(1),
            Reply::Begun | Reply::Pending | Reply::NotNow | Reply::Done { .. } => {}
        }
    }
}
