//! Reading the encoding of a set that comes in pieces.

ghost use Rattle.std.specs.Prelude.{◌≡◌, ◌+◌, ◌≤◌, ◌++◌, [], IfErr, IfOk, IsOk, OnErr, OnOk, Ok, Err, List, length, ℕ};
ghost use Rattle.containers.specs.declared.fault.Cause.TheVariants as cause;
ghost use Rattle.containers.specs.declared.fault.ImportFault.{ImportFault as TheFault};
ghost use Rattle.containers.specs.CheckedItems.{checked_of};
ghost use Rattle.containers.specs.Feeding.{Feeds};
ghost use Rattle.containers.specs.Refusals.{IsOfItems, Refuses};
ghost use Rattle.evidence.specs.Exports.{magic_of, set_text};
ghost use Rattle.evidence_set.specs.ItemSets.{Items, Join, count};
ghost use Rattle.evidence.specs.Contents.{with_items};
ghost use Rattle.evidence.specs.Importing.{fed_by, imported};

use crate::adding::add_all;
use crate::evidence::Evidence;
use crate::fault::NewStoreRefused;
use crate::stage::{Head, Stage, feed, finish};
use authenticators::Directory;
use containers::ImportFault;
use replay_verifier::Program;
use std::alloc::Global;
use std::marker::Model;

/// A reader of the encoding of a set, which comes in pieces. It checks each item as soon as all of its bytes are there. At the
/// end a store takes all of the items, or none. The importer keeps the items that were read, and the bytes of the item that is
/// not complete yet.
///
/// A contract sees the directory. It also sees the pieces so far, joined, or the fault by which they were refused.
#[derive(Drop)]
pub struct Importer<P: Program> {
    alloc: Global,
    directory: Directory,
    stage: Stage<P>,
}

impl<P: Program> Model for Importer<P> {
    ghost use Rattle.std.specs.Coded.{codes};
    ghost use Rattle.evidence.specs.Importing.{Importing};
    ghost use Rattle.evidence.specs.within.Stages.{IsStage, fed_of};

    ghost Value = { Importing };

    ghost coded = { Prim.hlevel (codes) };

    ghost view = { λ i. record { directory = i.directory; fed = fed_of i.stage } };

    ghost invariant = { λ i. IsStage i.directory P.means i.stage };
}

impl<P: Program> Importer<P> {
    /// Returns an importer that was fed nothing. Its items are checked under the directory. It takes no memory, and is never
    /// refused.
    pub fn new(alloc: Global, directory: Directory) -> Result<Importer<P>, NewStoreRefused>
        ensures begun { IfOk result (λ i. i ≡ record { directory = directory; fed = Ok [] }) }
        ensures lent { IsOk result }
    {
        Ok(Importer {
            alloc,
            directory,
            stage: Stage::Head(Head::new()),
        })
    }

    /// Reads the next piece, of any length.
    ///
    /// It refuses as soon as the pieces so far show a fault, whatever follows. The fault is the one that [`Evidence::import`]
    /// reports of the bytes so far. Bytes that are only cut off are no fault yet.
    ///
    /// `Memory` may come in place of a fault, but not before the 16 bytes of the header are there. Nor does it come in place of
    /// a fault that the bytes show whatever their items are. That is `BadMagic` (60), `TooLong` (42) of the first item, or
    /// `Trailing` (43) if there are no items. After a refusal each later call returns the same fault.
    pub fn feed(&mut self, program: &P, piece: &[u8]) -> Result<(), ImportFault>
        ensures directory { self.new.directory ≡ self.old.directory }
        ensures fed { Feeds result (fed_by (checked_of self.old.directory) piece.now self.old.fed) self.new.fed }
        ensures again { (f : TheFault) → self.old.fed ≡ Err f → (result ≡ Err f) × (self.new.fed ≡ Err f) }
        ensures memory { IfOk self.old.fed (λ text. IfErr result (λ f. f.cause ≡ cause.Memory → IsOfItems (λ reads. fed_by reads piece.now self.old.fed))) }
        // The header takes no memory.
        ensures header { IfOk self.old.fed (λ text. IfErr result (λ f. f.cause ≡ cause.Memory → 16 ≤ length (text ++ piece.now))) }
    {
        feed(self.alloc, program, &self.directory, &mut self.stage, piece)
    }

    /// Ends the reading, and adds all of the items to the store, or none. The store has the same directory. Returns how many of
    /// the items are new.
    ///
    /// Returns `Truncated` (40) if the bytes are cut off: at item 0 in the header, else at the item that is not complete. If
    /// `feed` refused, it returns the same fault. `Memory` may come in place of the result, but not in place of a fault. Each
    /// item was checked when it was read, so the program is not run again.
    pub fn finish<S: Evidence<P>>(self, _program: &P, store: &mut S) -> Result<u64, ImportFault>
        requires { (S.contents store.old).directory ≡ self.directory }
        ensures told { IfOk result (λ new. count (S.contents store.old).items + new ≡ count (S.contents store.new).items) }
        ensures joined { OnOk result ((text : List ℕ) × (added : Items) × (self.fed ≡ Ok text) × (text ≡ set_text (magic_of text) added) × (S.contents store.new ≡ with_items (S.contents store.old) (Join (S.contents store.old).items added))) }
        ensures fault { IfErr result (λ f. Refuses f (imported self)) }
        // A fault is reported even if memory runs out.
        ensures exact { (f : TheFault) → imported self ≡ Err f → result ≡ Err f }
        ensures refused { OnErr result (S.contents store.new ≡ S.contents store.old) }
    {
        let items = finish(self.stage)?;
        add_all(store, items)
    }
}
