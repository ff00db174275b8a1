//! The indexed store.

ghost use Rattle.std.specs.Prelude.{◌≡◌, ◌+◌, IfErr, IfOk, OnErr, OnOk, Ok, false, not};
ghost use Rattle.std.specs.List.{All};
ghost use Rattle.std.specs.List.Sorted.{IsStrictlySortedBy};
ghost use Rattle.item_forms.specs.Pieces.{by_bytes};
ghost use Rattle.evidence_item.specs.Checking.{IsChecked};
ghost use Rattle.evidence_set.specs.ItemSets.{Has, Join, contains, count, insert, pieces, set_of};
ghost use Rattle.evidence.specs.Contents.{with_items};

use crate::challenges::open_challenges;
use crate::convicting::proof;
use crate::digests::Digests;
use crate::including::{holds, includes};
use crate::index::Index;
use crate::indicating::indication;
use crate::knowing::knows;
use crate::listing::{count, digest_at, export, export_to, item_at};
use crate::merging::{merge, take_all};
use crate::taking::take;
use authenticators::{Directory, NodeId};
use evidence::{AskFault, Evidence, NewStoreRefused, TakeRefused, UnknownNode, WriteFault};
use evidence_item::{Checked, Hash, Item};
use evidence_set::Indication;
use kept_entries::EntryPool;
use node_tables::empty_tables;
use outcome::Memory;
use proofs::Proof;
use replay_verifier::Program;
use std::alloc::Global;
use std::io;
use std::marker::Model;
use tiered_vec::TieredVec;

/// A store that keeps its items as they came, their order by encodings, and what they say of each listed node. So a new item changes only
/// the tables of the nodes that it is about, and a question about a node is a look-up. Entries that several segments have are kept once.
/// A contract sees the directory and the set of the items.
///
/// It has room for 2^32 items, and refuses one more as if a growth were refused. It keeps no digests until one is asked for. From the next
/// change on it keeps those of all items, or fewer if there is no memory for them.
/// change on; before, none is made.
#[derive(Drop)]
pub struct IndexedStore<P: Program> {
    alloc: Global,
    directory: Directory,
    pool: EntryPool,
    index: Index<P>,
    digests: Digests,
}

impl<P: Program> Model for IndexedStore<P> {
    ghost use Rattle.std.specs.Coded.{codes};
    ghost use Rattle.evidence.specs.Contents.{Contents, items_code};
    ghost use Rattle.evidence_set.specs.ItemSets.{set_of};
    ghost use Rattle.indexed_store.specs.within.Digested.{IsStoreAtRest};

    ghost Value = { Contents };

    ghost coded = { Prim.hlevel (codes, items_code) };

    ghost view = { λ s. record { directory = s.directory; items = set_of s.index.items.items } };

    ghost invariant = { λ s. IsStoreAtRest s.directory P.means s.index s.digests };
}

impl<P: Program> Evidence<P> for IndexedStore<P> {
    ghost contents = { λ s. s };

    /// Returns a store with no item. It takes memory for a table of each listed node.
    fn new(alloc: Global, directory: Directory) -> Result<IndexedStore<P>, NewStoreRefused> {
        let Ok(tables) = empty_tables(alloc, &directory) else {
            return Err(NewStoreRefused(directory));
        };
        Ok(IndexedStore {
            alloc,
            directory,
            pool: EntryPool::new(alloc),
            index: Index {
                items: Vec::new(alloc),
                order: TieredVec::new(alloc),
                tables,
            },
            digests: Digests::new(alloc),
        })
    }

    fn directory(&self) -> &Directory {
        &self.directory
    }

    fn count(&self) -> u64 {
        count(&self.index)
    }

    fn item_at(&self, n: u64) -> Result<Option<Checked<P>>, Memory> {
        item_at(self.alloc, &self.index, n)
    }

    fn digest_at(&self, n: u64) -> Option<Hash> {
        digest_at(&self.index, &self.digests, n)
    }

    fn holds(&self, item: &Item) -> bool {
        holds(&self.index, item)
    }

    fn take(&mut self, checked: Checked<P>) -> Result<bool, TakeRefused<P>>
        requires { IsChecked self.old.directory P.means checked }
        ensures told { IfOk result (λ new. new ≡ not (contains self.old.items checked.item)) }
        ensures taken { OnOk result (self.new ≡ with_items self.old (insert self.old.items checked.item)) }
        ensures held { Has self.old.items checked.item → result ≡ Ok false }
        ensures given_back { IfErr result (λ refused. (refused.0.item ≡ checked.item) × (refused.0.verdict ≡ checked.verdict) × IsChecked self.old.directory P.means refused.0) }
        ensures refused { OnErr result (self.new ≡ self.old) }
    {
        let taken = take(
            self.alloc,
            &self.directory,
            &mut self.pool,
            &mut self.index,
            checked,
        );
        self.digests.keep_up(&self.index.items);
        taken
    }

    fn merge(&mut self, other: &IndexedStore<P>) -> Result<u64, Memory> {
        let merged = merge(
            self.alloc,
            &self.directory,
            &mut self.pool,
            &mut self.index,
            &other.index.items,
        );
        self.digests.keep_up(&self.index.items);
        merged
    }

    /// Returns what the items say of the node. It is a look-up.
    fn indication(&self, node: NodeId) -> Result<Indication, UnknownNode> {
        if !self.directory.contains(node) {
            return Err(UnknownNode);
        }
        Ok(indication(&self.directory, &self.index, node))
    }

    /// It is a look-up.
    fn knows(&self, node: NodeId) -> bool {
        knows(&self.directory, &self.index, node)
    }

    fn includes(&self, other: &IndexedStore<P>) -> bool {
        includes(&self.index, &other.index.items)
    }

    fn proof(&self, node: NodeId) -> Result<Option<Proof>, AskFault> {
        if !self.directory.contains(node) {
            return Err(AskFault::UnknownNode);
        }
        let found = proof(self.alloc, &self.directory, &self.index, node)?;
        Ok(found)
    }

    fn open_challenges(&self, node: NodeId) -> Result<Vec<&Item>, AskFault> {
        if !self.directory.contains(node) {
            return Err(AskFault::UnknownNode);
        }
        let found = open_challenges(self.alloc, &self.directory, &self.index, node)?;
        Ok(found)
    }

    fn export(&self) -> Result<Vec<u8>, Memory> {
        export(self.alloc, &self.index)
    }

    fn export_to<W: io::Write>(&self, writer: &mut W) -> Result<(), WriteFault> {
        export_to(self.alloc, &self.index, writer)
    }

    fn allocator(&self) -> Global {
        self.alloc
    }

    fn take_all(&mut self, items: Vec<Checked<P>>) -> Result<u64, Memory>
        requires checked { All (IsChecked self.old.directory P.means) items.items }
        requires ascending { IsStrictlySortedBy by_bytes (pieces items.items) }
        ensures told { IfOk result (λ new. count self.old.items + new ≡ count self.new.items) }
        ensures joined { OnOk result (self.new ≡ with_items self.old (Join self.old.items (set_of items.items))) }
        ensures refused { OnErr result (self.new ≡ self.old) }
    {
        let taken = take_all(
            self.alloc,
            &self.directory,
            &mut self.pool,
            &mut self.index,
            items,
        );
        self.digests.keep_up(&self.index.items);
        taken
    }
}
