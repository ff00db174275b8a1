//! The plain store.

ghost use Rattle.std.specs.Prelude.{◌≡◌, ◌+◌, IfErr, IfOk, OnErr, OnOk, Ok, false, not};
ghost use Rattle.std.specs.List.{All};
ghost use Rattle.std.specs.List.Sorted.{IsStrictlySortedBy};
ghost use Rattle.item_forms.specs.Pieces.{by_bytes};
ghost use Rattle.evidence_item.specs.Checking.{IsChecked};
ghost use Rattle.evidence_set.specs.ItemSets.{Has, Join, contains, count, insert, pieces, set_of};
ghost use Rattle.evidence.specs.Contents.{with_items};

use crate::convicting::proof;
use crate::including::includes;
use crate::indicating::indication;
use crate::knowing::knows;
use crate::listing::{count, digest_at, export, export_to, item_at};
use crate::merging::{merge, take_all};
use crate::opening::open_challenges;
use crate::placing::holds;
use crate::taking::take;
use authenticators::{AuthenticatorStore, Directory, NodeId};
use evidence::{AskFault, Evidence, NewStoreRefused, TakeRefused, UnknownNode, WriteFault};
use evidence_item::{Checked, Hash, Item};
use evidence_set::Indication;
use outcome::Memory;
use proofs::Proof;
use replay_verifier::Program;
use std::alloc::Global;
use std::io;
use std::marker::Model;

/// A store that keeps its items in one list, ascending by their encodings. It keeps each item with its verdict and with what
/// checking found of it. Beside the list it keeps the set of the statements that the items hold. A contract sees the directory
/// and the set of the items.
///
/// A question looks only at the node's statements and segments, at the audit challenges against it, at all send challenges, and at
/// the acknowledgements of their messages.
#[derive(Drop)]
pub struct PlainStore<P: Program> {
    alloc: Global,
    directory: Directory,
    items: Vec<Checked<P>>,
    statements: AuthenticatorStore,
}

impl<P: Program> Model for PlainStore<P> {
    ghost use Rattle.std.specs.Coded.{codes};
    ghost use Rattle.evidence.specs.Contents.{Contents, items_code};
    ghost use Rattle.evidence_set.specs.ItemSets.{set_of};
    ghost use Rattle.kept_evidence.specs.Kept.{IsStore};

    ghost Value = { Contents };

    ghost coded = { Prim.hlevel (codes, items_code) };

    ghost view = { λ s. record { directory = s.directory; items = set_of s.items.items } };

    ghost invariant = { λ s. IsStore s.directory P.means s.items.items s.statements };
}

impl<P: Program> Evidence<P> for PlainStore<P> {
    ghost contents = { λ s. s };

    /// Creates a store without items. It takes no memory, and is never refused.
    fn new(alloc: Global, directory: Directory) -> Result<PlainStore<P>, NewStoreRefused> {
        Ok(PlainStore {
            alloc,
            directory,
            items: Vec::new(alloc),
            statements: AuthenticatorStore::new(alloc),
        })
    }

    fn directory(&self) -> &Directory {
        &self.directory
    }

    fn count(&self) -> u64 {
        count(&self.items)
    }

    fn item_at(&self, n: u64) -> Result<Option<Checked<P>>, Memory> {
        item_at(self.alloc, &self.items, n)
    }

    fn digest_at(&self, n: u64) -> Option<Hash> {
        digest_at(&self.items, n)
    }

    fn holds(&self, item: &Item) -> bool {
        holds(&self.items, item)
    }

    /// Adds an item, as [`Evidence::take`] says. It finds the item's place by binary search, and moves all items that come
    /// after it.
    fn take(&mut self, checked: Checked<P>) -> Result<bool, TakeRefused<P>>
        requires { IsChecked self.old.directory P.means checked }
        ensures told { IfOk result (λ new. new ≡ not (contains self.old.items checked.item)) }
        ensures taken { OnOk result (self.new ≡ with_items self.old (insert self.old.items checked.item)) }
        ensures held { Has self.old.items checked.item → result ≡ Ok false }
        ensures given_back { IfErr result (λ refused. (refused.0.item ≡ checked.item) × (refused.0.verdict ≡ checked.verdict) × IsChecked self.old.directory P.means refused.0) }
        ensures refused { OnErr result (self.new ≡ self.old) }
    {
        take(
            self.alloc,
            &self.directory,
            &mut self.items,
            &mut self.statements,
            checked,
        )
    }

    fn merge(&mut self, other: &PlainStore<P>) -> Result<u64, Memory> {
        merge(
            self.alloc,
            &self.directory,
            &mut self.items,
            &mut self.statements,
            &other.items,
        )
    }

    fn indication(&self, node: NodeId) -> Result<Indication, UnknownNode> {
        if !self.directory.contains(node) {
            return Err(UnknownNode);
        }
        Ok(indication(&self.directory, &self.items, &self.statements, node))
    }

    fn knows(&self, node: NodeId) -> bool {
        knows(&self.directory, &self.items, &self.statements, node)
    }

    fn includes(&self, other: &PlainStore<P>) -> bool {
        includes(&self.items, &other.items)
    }

    fn proof(&self, node: NodeId) -> Result<Option<Proof>, AskFault> {
        if !self.directory.contains(node) {
            return Err(AskFault::UnknownNode);
        }
        let found = proof(
            self.alloc,
            &self.directory,
            &self.items,
            &self.statements,
            node,
        )?;
        Ok(found)
    }

    fn open_challenges(&self, node: NodeId) -> Result<Vec<&Item>, AskFault> {
        if !self.directory.contains(node) {
            return Err(AskFault::UnknownNode);
        }
        let found = open_challenges(self.alloc, &self.directory, &self.items, node)?;
        Ok(found)
    }

    fn export(&self) -> Result<Vec<u8>, Memory> {
        export(self.alloc, &self.items)
    }

    fn export_to<W: io::Write>(&self, writer: &mut W) -> Result<(), WriteFault> {
        export_to(self.alloc, &self.items, writer)
    }

    fn allocator(&self) -> Global {
        self.alloc
    }

    /// Adds all of the items or none, as [`Evidence::take_all`] says. It looks each item up by binary search, and then sorts
    /// the list with the new ones once.
    fn take_all(&mut self, items: Vec<Checked<P>>) -> Result<u64, Memory>
        requires checked { All (IsChecked self.old.directory P.means) items.items }
        requires ascending { IsStrictlySortedBy by_bytes (pieces items.items) }
        ensures told { IfOk result (λ new. count self.old.items + new ≡ count self.new.items) }
        ensures joined { OnOk result (self.new ≡ with_items self.old (Join self.old.items (set_of items.items))) }
        ensures refused { OnErr result (self.new ≡ self.old) }
    {
        take_all(
            self.alloc,
            &self.directory,
            &mut self.items,
            &mut self.statements,
            items,
        )
    }
}
