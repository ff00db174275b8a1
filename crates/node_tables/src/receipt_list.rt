//! The messages that a node sent and of which segments have receipts.

ghost use Rattle.std.specs.Prelude.{◌≡◌, [], true};
ghost use Rattle.node_tables.specs.Receipts.{AreSameReceipts};

use crate::sending::Sending;
use outcome::Memory;
use std::alloc::Global;
use tiered_vec::TieredVec;

/// The messages that a node sent and of which segments have receipts. Room is made for receipts that were promised, and for no other
/// statement. If memory is refused that was promised, receipts are no longer kept. Then segments are looked through, for the rest of the
/// store's life.
#[derive(Drop)]
pub struct ReceiptList {
    /// Whether receipts are kept.
    pub whole: bool,
    /// Each message once, ascending by receiver and number.
    pub sendings: TieredVec<Sending>,
    /// How many receipts were promised room and have not come yet.
    pub awaited: usize,
}

impl ReceiptList {
    /// Returns a list of no messages. It takes no memory.
    pub(crate) fn new(alloc: Global) -> ReceiptList
        ensures whole { result.whole ≡ true }
        ensures sendings { result.sendings.items ≡ [] }
    {
        ReceiptList {
            whole: true,
            sendings: TieredVec::new(alloc),
            awaited: 0,
        }
    }

    /// Promises so many more, and makes room for all that were promised. If it returns `Memory`, as many are promised as before.
    pub(crate) fn promise(&mut self, more: usize) -> Result<(), Memory>
        ensures { AreSameReceipts self.old self.new }
    {
        let awaited = self.awaited.saturating_add(more);
        self.sendings.reserve(awaited)?;
        self.awaited = awaited;
        Ok(())
    }

    /// Takes back the promise of so many.
    pub(crate) fn release(&mut self, fewer: usize)
        ensures { AreSameReceipts self.old self.new }
    {
        self.awaited = self.awaited.saturating_sub(fewer);
    }
}
