//! The receipts of one caller.
ghost use Rattle.std.specs.Prelude.{◌≡◌, []};

use sequential_signer::Entry;
use std::alloc::Global;
use std::marker::Model;

/// An entry, with its place in the journal.
#[derive(Debug, Drop)]
pub struct Receipt<K> {
    pub place: u64,
    pub entry: Entry<K>,
}

/// The receipts of one caller's steps, in order. It cannot be copied.
#[derive(Drop)]
pub struct Pass<K> {
    pub(crate) receipts: Vec<Receipt<K>>,
    pub(crate) spare: usize,
}

impl<K> Model for Pass<K> {
    ghost use Rattle.std.specs.Prelude.{List};
    ghost use Rattle.signer_book.specs.declared.pass.Receipt.{Receipt};

    ghost Value = { List (Receipt K) };

    ghost use Rattle.std.specs.Prelude.{vec_capacity};
    ghost use Rattle.signer_book.specs.OpenBegins.{HasReceiptRoom};

    ghost view = { λ pass. pass.receipts.items };

    ghost invariant = { λ pass. HasReceiptRoom pass.receipts.items pass.spare (vec_capacity pass.receipts) };
}

impl<K> Pass<K> {
    /// A pass without receipts.
    pub fn new(alloc: Global) -> Pass<K>
        ensures { result ≡ [] }
    {
        Pass {
            receipts: Vec::new(alloc),
            spare: 0,
        }
    }

    /// The receipts, in order.
    pub fn receipts(&self) -> &[Receipt<K>]
        ensures { result.now ≡ self.now }
    {
        self.receipts.as_slice()
    }
}
