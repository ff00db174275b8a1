//! The digests of items. They are kept once one was asked for.

ghost use Rattle.std.specs.Prelude.{◌≡◌, [], slice_get};
ghost use Rattle.indexed_store.specs.within.Digested.{AreDigests};

use evidence_item::Hash;
use kept_items::KeptItem;
use std::alloc::Global;
use std::marker::Model;
use std::sync::atomic::{AtomicBool, Ordering};

/// The digests of the first items as they came. There are none until one is asked for. From the next change on they are those of all items.
/// A contract sees the list of them.
#[derive(Drop)]
pub(crate) struct Digests {
    made: Vec<Hash>,
    asked: AtomicBool,
}

impl Model for Digests {
    ghost use Rattle.std.specs.Prelude.{List, ℕ};

    ghost Value = { List (List ℕ) };

    ghost view = { λ d. d.made.items };
}

/// Makes the digests of the items that have none yet. If there is no memory for more, it makes fewer.
fn make_each<P>(made: &mut Vec<Hash>, items: &[KeptItem<P>])
    requires { AreDigests made.old.items items.now }
    ensures { AreDigests made.new.items items.now }
{
    while let Some(kept) = items.get(made.len()) {
        let Ok(()) = made.push(kept.digest()) else {
            return;
        };
    }
}

impl Digests {
    /// Returns no digests.
    pub(crate) fn new(alloc: Global) -> Digests
        ensures { result ≡ [] }
    {
        Digests {
            made: Vec::new(alloc),
            asked: AtomicBool::new(false),
        }
    }

    /// Returns the digest of the item at a place, if it is kept. It takes no memory.
    pub(crate) fn ask(&self, place: u32) -> Option<Hash>
        ensures { result ≡ slice_get self.now place }
    {
        self.asked.store(true, Ordering::Relaxed);
        self.made.get(place as usize).copied()
    }

    /// Keeps the digests of all items, if one was asked for. If there is no memory for that, it keeps fewer.
    pub(crate) fn keep_up<P>(&mut self, items: &[KeptItem<P>])
        requires { AreDigests self.old items.now }
        ensures { AreDigests self.new items.now }
    {
        if self.asked.load(Ordering::Relaxed) {
            make_each(&mut self.made, items);
        }
    }
}
