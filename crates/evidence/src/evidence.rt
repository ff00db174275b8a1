//! What a store of evidence does, in whatever form it keeps its items.

ghost use Rattle.std.specs.Prelude.{◌≡◌, ◌+◌, ◌↔◌, false, not, IfErr, IfOk, IfSome, IsSome, IsTrue, IsErr, OnErr, OnOk, Ok, Err, is_some, slice_get, map, option_map};
ghost use Rattle.std.specs.Io.KnownBytes.{Appends};
ghost use Rattle.std.specs.List.{All, Contains};
ghost use Rattle.std.specs.List.Sorted.{IsStrictlySortedBy};
ghost use Rattle.authenticators.specs.Directory.{is_listed};
ghost use Rattle.item_digests.specs.Digests.{digest_of};
ghost use Rattle.item_forms.specs.Pieces.{Piece, by_bytes};
ghost use Rattle.evidence_item.specs.Checking.{Checked as TheChecked, IsChecked};
ghost use Rattle.proofs.specs.Convicting.{Convicts};
ghost use Rattle.containers.specs.declared.fault.Cause.TheVariants as cause;
ghost use Rattle.containers.specs.Refusals.{IsBehindFront, Refuses};
ghost use Rattle.localities.specs.Known.{IsKnown};
ghost use Rattle.evidence_set.specs.Indications.{IsExposed, IsIndication, IsUnanswered};
ghost use Rattle.evidence.specs.Exports.{export_of};
ghost use Rattle.evidence_set.specs.Valid.{AreValid};
ghost use Rattle.evidence_set.specs.ItemSets.{Has, IsWithin, Items, Join, contains, count, insert, listed, none, pieces, set_of};
ghost use Rattle.evidence.specs.Contents.{Contents, with_items};
ghost use Rattle.evidence.specs.Importing.{Imports, import_set};
ghost use Rattle.evidence.specs.declared.fault.AskFault.TheVariants as ask;

use crate::adding::add_all;
use crate::fault::{AskFault, NewStoreRefused, TakeRefused, UnknownNode, WriteFault};
use crate::set_text::items_of;
use authenticators::{Directory, NodeId};
use containers::ImportFault;
use evidence_item::{Checked, Hash, Item};
use evidence_set::Indication;
use outcome::Memory;
use proofs::Proof;
use replay_verifier::Program;
use std::alloc::Global;
use std::io;

/// A store: a set of items of evidence that are valid under one directory. Its nodes follow the program `P`. The store reports
/// what the set says of each node. A contract sees the directory and the set.
///
/// Nothing shows how often or in what order a store took its items. Stores that took the same items have equal contents, export
/// equal bytes, and give every node the same indication.
pub trait Evidence<P: Program>: Drop {
    // The directory and the set.
    ghost contents: { Self → Contents };

    /// Creates a store without items, under the directory. If a growth is refused, the directory is given back.
    fn new(alloc: Global, directory: Directory) -> Result<Self, NewStoreRefused>
        ensures empty { IfOk result (λ s. contents s ≡ record { directory = directory; items = none }) }
        ensures given_back { IfErr result (λ refused. refused.0 ≡ directory) };

    /// Returns the directory under which each item is valid.
    fn directory(&self) -> &Directory
        ensures kept { result.now ≡ (contents self.now).directory }
        ensures valid { AreValid (contents self.now).directory (contents self.now).items };

    /// Returns how many items the store has.
    fn count(&self) -> u64
        ensures { result ≡ count (contents self.now).items };

    /// Returns a copy of item `n`. Items are numbered from 0 in the order of their encodings. Returns `None` if `n` is the
    /// count or above.
    fn item_at(&self, n: u64) -> Result<Option<Checked<P>>, Memory>
        ensures item { IfOk result (λ found. option_map (λ (c : TheChecked). c.item) found ≡ slice_get (listed (contents self.now).items) n) }
        ensures checked { IfOk result (λ found. IfSome found (λ c. IsChecked (contents self.now).directory P.means c)) };

    /// Returns the digest of item `n`. Items are numbered from 0 in the order of their encodings. Returns `None` if `n` is the
    /// count or above. A store may keep the digest, or hash the item when it is asked. It takes no memory.
    fn digest_at(&self, n: u64) -> Option<Hash>
        ensures { result ≡ option_map digest_of (slice_get (listed (contents self.now).items) n) };

    /// Returns whether the store has the item. It takes no memory.
    fn holds(&self, item: &Item) -> bool
        ensures { result ≡ contains (contents self.now).items item.now };

    /// Adds an item that was checked under the store's directory. Returns whether the item is new.
    ///
    /// If the item keeps what checking found, it verifies no signature and hashes no content. If it is a segment made by
    /// [`Checked::from_parts`], it hashes the entries and verifies the quotes in them.
    ///
    /// If a growth is refused, or the store has no room for one item more, the item is given back and the store is as it was.
    fn take(&mut self, checked: Checked<P>) -> Result<bool, TakeRefused<P>>
        requires { IsChecked (contents self.old).directory P.means checked }
        ensures told { IfOk result (λ new. new ≡ not (contains (contents self.old).items checked.item)) }
        ensures taken { OnOk result (contents self.new ≡ with_items (contents self.old) (insert (contents self.old).items checked.item)) }
        // That the store has the item already is reported even if memory runs out.
        ensures held { Has (contents self.old).items checked.item → result ≡ Ok false }
        ensures given_back { IfErr result (λ refused. (refused.0.item ≡ checked.item) × (refused.0.verdict ≡ checked.verdict) × IsChecked (contents self.old).directory P.means refused.0) }
        ensures refused { OnErr result (contents self.new ≡ contents self.old) };

    /// Returns whether the two stores have the same directory, so that one can merge the other. It takes no memory.
    final fn shares_directory(&self, other: &Self) -> bool
        ensures { IsTrue result ↔ ((contents self.now).directory ≡ (contents other.now).directory) }
    {
        *self.directory() == *other.directory()
    }

    /// Adds all items of another store under the same directory. Returns how many of them are new. If memory runs out, it
    /// reports `Memory` and adds none.
    fn merge(&mut self, other: &Self) -> Result<u64, Memory>
        requires { (contents self.old).directory ≡ (contents other.now).directory }
        ensures told { IfOk result (λ new. count (contents self.old).items + new ≡ count (contents self.new).items) }
        ensures joined { OnOk result (contents self.new ≡ with_items (contents self.old) (Join (contents self.old).items (contents other.now).items)) }
        ensures refused { OnErr result (contents self.new ≡ contents self.old) };

    /// Returns the indication of the node: what the items say of it. It verifies no signature and takes no memory. It reports
    /// `UnknownNode` (44) if the directory does not list the node.
    fn indication(&self, node: NodeId) -> Result<Indication, UnknownNode>
        ensures told { IfOk result (λ i. IsIndication (contents self.now).directory P.means (contents self.now).items node i) }
        ensures unknown { IsErr result ↔ (is_listed (contents self.now).directory node ≡ false) };

    /// Returns whether anything is known of the node: whether the items hold a statement of it, or a challenge against it. A node that behaved
    /// well is trusted, and so is a node of which nothing is known. Nothing is known of a node that is not listed. It takes no memory.
    fn knows(&self, node: NodeId) -> bool
        ensures { IsTrue result ↔ IsKnown (contents self.now).directory (contents self.now).items node };

    /// Returns whether this store has each item of the other store. It takes no memory.
    fn includes(&self, other: &Self) -> bool
        ensures { IsTrue result ↔ IsWithin (contents other.now).items (contents self.now).items };

    /// Returns a proof against the node if the items expose it, else `None`. The proof convicts the node before anybody who has
    /// the directory and the program. If there are several proofs, the contract does not say which one is returned.
    ///
    /// It reports `UnknownNode` (44) if the directory does not list the node, and `Memory` if a growth is refused.
    fn proof(&self, node: NodeId) -> Result<Option<Proof>, AskFault>
        ensures some { IfOk result (λ p. IsSome p ↔ IsExposed (contents self.now).directory P.means (contents self.now).items node) }
        ensures convicts { IfOk result (λ p. IfSome p (λ q. Convicts (contents self.now).directory P.means node q.parts)) }
        ensures unknown { (result ≡ Err ask.UnknownNode) ↔ (is_listed (contents self.now).directory node ≡ false) };

    /// Returns the challenges against the node that no item answers, in the order of their encodings.
    ///
    /// It reports `UnknownNode` (44) if the directory does not list the node, and `Memory` if a growth is refused.
    fn open_challenges(&self, node: NodeId) -> Result<Vec<&Item>, AskFault>
        ensures members { IfOk result (λ found. (x : Piece) → Contains (map (λ i. i.now) found.items) x ↔ (Has (contents self.now).items x × IsUnanswered (contents self.now).directory (contents self.now).items node x.fields)) }
        ensures ascending { IfOk result (λ found. IsStrictlySortedBy by_bytes (map (λ i. i.now) found.items)) }
        ensures unknown { (result ≡ Err ask.UnknownNode) ↔ (is_listed (contents self.now).directory node ≡ false) };

    /// Writes the export of the store: the one encoding of its set of items, a container that begins with `PRSTORE2`.
    fn export(&self) -> Result<Vec<u8>, Memory>
        ensures { IfOk result (λ text. text.items ≡ export_of (contents self.now).items) };

    /// Writes the same export to the writer, in pieces. So nothing holds the whole of it. After a fault it is not known how much
    /// was written.
    fn export_to<W: io::Write>(&self, writer: &mut W) -> Result<(), WriteFault>
        ensures { OnOk result (Appends (W.contents writer.old) (W.contents writer.new) (export_of (contents self.now).items)) };

    /// Returns the allocator from which the store takes its memory.
    fn allocator(&self) -> Global;

    /// Adds all of the items. Returns how many of them are new. If memory runs out, it reports `Memory` and adds none. The
    /// items were checked under the store's directory, and ascend by their encodings. It verifies and hashes of each item what
    /// [`Evidence::take`] does.
    fn take_all(&mut self, items: Vec<Checked<P>>) -> Result<u64, Memory>
        requires checked { All (IsChecked (contents self.old).directory P.means) items.items }
        requires ascending { IsStrictlySortedBy by_bytes (pieces items.items) }
        ensures told { IfOk result (λ new. count (contents self.old).items + new ≡ count (contents self.new).items) }
        ensures joined { OnOk result (contents self.new ≡ with_items (contents self.old) (Join (contents self.old).items (set_of items.items))) }
        ensures refused { OnErr result (contents self.new ≡ contents self.old) };

    /// Reads the encoding of a set, which begins with `PRSTORE2` or `PRSTORE1`. It checks the items, and adds all of them or
    /// none. Returns how many of them are new.
    ///
    /// It reports the first of these faults, at the first item that shows one:
    ///
    /// - Of the header: `Truncated` (40) of the first eight bytes, `BadMagic` (60), `Truncated` of the count.
    /// - Of an item, in this order: `Truncated` of its length, `TooLong` (42) of it, `Truncated` of its bytes, its fault of
    ///   reading (40 to 43), `NotAscending` (61), its fault of checking (44 to 49).
    /// - `Trailing` (43) at the number of items, if a byte follows the last item.
    ///
    /// `Memory` may come in place of any of them, or of the result, but only after the first item was read. So a fault of the
    /// header, or of the first item's bytes, is reported even if memory runs out. The count in the header is not trusted: no
    /// memory is taken for items whose bytes are not there.
    final fn import(&mut self, program: &P, bytes: &[u8]) -> Result<u64, ImportFault>
        ensures told { IfOk result (λ new. count (contents self.old).items + new ≡ count (contents self.new).items) }
        ensures joined { OnOk result (Imports bytes.now (contents self.old) (contents self.new)) }
        ensures fault { IfErr result (λ f. Refuses f (import_set (contents self.old).directory bytes.now)) }
        ensures memory { IfErr result (λ f. f.cause ≡ cause.Memory → IsBehindFront (import_set (contents self.old).directory bytes.now)) }
        ensures refused { OnErr result (contents self.new ≡ contents self.old) }
    {
        let items = items_of(self.allocator(), program, self.directory(), bytes)?;
        add_all(self, items)
    }
}
