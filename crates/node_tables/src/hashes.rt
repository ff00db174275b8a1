//! What is kept of a node by hashes: the entries of its segments, and the open audit challenges against it.

ghost use Rattle.std.specs.Prelude.{◌≡◌, [], true};
ghost use Rattle.node_tables.specs.Hashed.{AreSame};

use crate::mark::Mark;
use crate::naming::Naming;
use outcome::Memory;
use std::alloc::Global;
use tiered_vec::TieredVec;

/// A node's entries and open audit challenges by hashes. With these, neither has to be looked through. If two texts with one SHA-256 value
/// are found, or if memory is refused that was promised, they are no longer kept. Then all is looked through, for the rest of the store's
/// life.
#[derive(Drop)]
pub struct Hashes {
    /// Whether marks and namings are kept.
    pub whole: bool,
    /// For each hash of an entry, the segment that has most entries before it.
    pub holders: TieredVec<Mark>,
    /// The open audit challenges, by the hash of their last entry.
    pub lasts: TieredVec<Naming>,
    /// The open audit challenges that name a first entry, by its hash.
    pub firsts: TieredVec<Naming>,
    /// How many entries were promised room and have not come yet.
    pub awaited: usize,
}

impl Hashes {
    /// Returns the marks and namings of no items. It takes no memory.
    pub(crate) fn new(alloc: Global) -> Hashes
        ensures whole { result.whole ≡ true }
        ensures holders { result.holders.items ≡ [] }
        ensures lasts { result.lasts.items ≡ [] }
        ensures firsts { result.firsts.items ≡ [] }
    {
        Hashes {
            whole: true,
            holders: TieredVec::new(alloc),
            lasts: TieredVec::new(alloc),
            firsts: TieredVec::new(alloc),
            awaited: 0,
        }
    }

    /// Makes room for so many challenges more, and for all entries that were promised.
    fn reserve(&mut self, challenges: usize) -> Result<(), Memory>
        ensures { AreSame self.old self.new }
    {
        self.holders.reserve(self.awaited)?;
        self.lasts.reserve(challenges)?;
        self.firsts.reserve(challenges)?;
        Ok(())
    }

    /// Promises so many entries more. It makes room for them, and for so many challenges more. If it returns `Memory`, as many are promised
    /// as before.
    pub(crate) fn promise(&mut self, entries: usize, challenges: usize) -> Result<(), Memory>
        ensures { AreSame self.old self.new }
    {
        self.awaited = self.awaited.saturating_add(entries);
        let Err(memory) = self.reserve(challenges) else {
            return Ok(());
        };
        self.release(entries);
        Err(memory)
    }

    /// Takes back the promise of so many entries.
    pub(crate) fn release(&mut self, entries: usize)
        ensures { AreSame self.old self.new }
    {
        self.awaited = self.awaited.saturating_sub(entries);
    }
}
