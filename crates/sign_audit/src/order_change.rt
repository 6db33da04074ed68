//! What a reply does to the order of its call's cache, by how far the call was.
ghost use Rattle.std.specs.Prelude.{◌≡◌};
ghost use Rattle.sign_audit.specs.OrderChange.{order_change};

use sequential_signer::Reply;
use sign_desk::Stage;

/// What becomes of a call in the order of its cache.
#[derive(Clone, Copy, Debug, PartialEq, Eq)]
pub(crate) enum OrderChange {
    /// It comes, and stands behind all others.
    Enters,
    /// It leaves.
    Leaves,
    /// It stays where it is, in the order or out of it.
    Stays,
}

/// What a reply does to the order, where the call was at this stage before.
pub(crate) fn order_change<K>(stage: Option<Stage>, reply: &Reply<K>) -> OrderChange
    ensures { result ≡ order_change stage reply.now }
{
    match (stage, reply) {
        (Some(Stage::Unpolled), Reply::Pending | Reply::Ask { .. }) => OrderChange::Enters,
        (
            Some(Stage::Queued | Stage::Loading),
            Reply::Sign { .. } | Reply::Refused { .. } | Reply::Cancelled { .. },
        ) => OrderChange::Leaves,
        _ => OrderChange::Stays,
    }
}
