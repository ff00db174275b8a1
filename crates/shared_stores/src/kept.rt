//! What lies under the lock: a store, and the history that leads to it.

ghost use Rattle.std.specs.Prelude.{◌≡◌, ◌↔◌, [], true, IfErr, IfOk, IsTrue, OnErr};
ghost use Rattle.authenticators.specs.Directory.{is_listed};
ghost use Rattle.evidence_item.specs.Checking.{IsChecked};
ghost use Rattle.shared_stores.specs.declared.history.Call.TheVariants.{Ask, Export, Merge, Take};
ghost use Rattle.shared_stores.specs.declared.history.Given.TheVariants.{Bytes, Merged, Says, Took};
ghost use Rattle.shared_stores.specs.Histories.{Replays};
ghost use Rattle.shared_stores.specs.within.Journals.{Steps};

use crate::history::{Call, Given, Recorded};
use crate::item_set::ItemSet;
use authenticators::{Directory, NodeId};
use evidence::{Evidence, TakeRefused};
use evidence_item::{Checked, Item};
use evidence_set::Indication;
use log_chain::ByteString;
use outcome::Memory;
use replay_verifier::Program;
use std::alloc::Global;
use std::marker::{Model, PhantomData};

/// A store with the set that it was opened with and the history since then. The history leads from the opening set to the store's items,
/// whenever nobody is in a call. Only its four calls change it, and each of them is one step.
#[derive(Drop)]
pub(crate) struct Kept<P: Program, S: Evidence<P>> {
    opening: ItemSet,
    store: S,
    history: Vec<Recorded>,
    program: PhantomData<P>,
}

impl<P: Program, S: Evidence<P>> Model for Kept<P, S> {
    ghost use Rattle.shared_stores.specs.Histories.{Replays};
    ghost use Rattle.shared_stores.specs.within.Journals.{Journal, journal_code};

    ghost Value = { Journal };

    ghost coded = { journal_code };

    ghost view = { λ k. record { directory = (S.contents k.store).directory; opening = k.opening; history = k.history.items; items = (S.contents k.store).items } };

    ghost invariant = { λ k. Replays (S.contents k.store).directory P.means k.opening k.history.items (S.contents k.store).items };
}

impl<P: Program, S: Evidence<P>> Kept<P, S> {
    /// Keeps the store, with the set of its items. It takes no memory.
    pub(crate) fn new(alloc: Global, opening: ItemSet, store: S) -> Kept<P, S>
        requires { opening ≡ (S.contents store).items }
        ensures { result ≡ record { directory = (S.contents store).directory; opening = opening; history = []; items = opening } }
    {
        Kept {
            opening,
            store,
            history: Vec::new(alloc),
            program: PhantomData,
        }
    }

    /// Returns whether the store is under this directory. It takes no memory.
    pub(crate) fn is_under(&self, directory: &Directory) -> bool
        ensures { IsTrue result ↔ (self.now.directory ≡ directory.now) }
    {
        *self.store.directory() == *directory
    }

    /// Takes an item. The copy is for the history.
    pub(crate) fn take(
        &mut self,
        caller: usize,
        checked: Checked<P>,
        copy: Item,
    ) -> Result<bool, TakeRefused<P>>
        requires checked { IsChecked self.old.directory P.means checked }
        requires copy { copy ≡ checked.item }
        ensures done { IfOk result (λ new. Steps P.means self.old caller (Take checked.item) (Took new) self.new) }
        ensures given_back { IfErr result (λ refused. (refused.0.item ≡ checked.item) × (refused.0.verdict ≡ checked.verdict) × IsChecked self.old.directory P.means refused.0) }
        ensures refused { OnErr result (self.new ≡ self.old) }
    {
        if self.history.reserve(1).is_err() {
            return Err(TakeRefused(checked));
        }
        let took = self.store.take(checked)?;
        self.history
            .push_reserved(Recorded::new(caller, Call::Take(copy), Given::Took(took)));
        Ok(took)
    }

    /// Merges a store. The copies of its items are for the history.
    pub(crate) fn merge(&mut self, caller: usize, other: &S, copies: ItemSet) -> Result<u64, Memory>
        requires directory { self.old.directory ≡ (S.contents other.now).directory }
        requires copies { copies ≡ (S.contents other.now).items }
        ensures done { IfOk result (λ new. Steps P.means self.old caller (Merge copies) (Merged new) self.new) }
        ensures refused { OnErr result (self.new ≡ self.old) }
    {
        // What the other store has is valid under its directory.
        other.directory();
        self.history.reserve(1)?;
        let new = self.store.merge(other)?;
        self.history.push_reserved(Recorded::new(caller, Call::Merge(copies), Given::Merged(new)));
        Ok(new)
    }

    /// Returns what the items say of a node that is listed.
    pub(crate) fn ask(&mut self, caller: usize, node: NodeId) -> Result<Indication, Memory>
        requires { is_listed self.old.directory node ≡ true }
        ensures done { IfOk result (λ says. Steps P.means self.old caller (Ask node) (Says says) self.new) }
        ensures refused { OnErr result (self.new ≡ self.old) }
    {
        self.history.reserve(1)?;
        let Ok(says) = self.store.indication(node) else {
            unreachable!();
        };
        self.history
            .push_reserved(Recorded::new(caller, Call::Ask(node), Given::Says(says)));
        Ok(says)
    }

    /// Returns the text of all items twice, for the caller and for its pass.
    pub(crate) fn export(
        &mut self,
        alloc: Global,
        caller: usize,
    ) -> Result<(Vec<u8>, ByteString), Memory>
        ensures done { IfOk result (λ texts. Steps P.means self.old caller Export (Bytes texts.0.items) self.new × (texts.1 ≡ texts.0.items)) }
        ensures refused { OnErr result (self.new ≡ self.old) }
    {
        let text = self.store.export()?;
        let copy = ByteString::from_slice(alloc, text.as_slice())?;
        let noted = ByteString::from_slice(alloc, text.as_slice())?;
        self.history.reserve(1)?;
        self.history
            .push_reserved(Recorded::new(caller, Call::Export, Given::Bytes(copy)));
        Ok((text, noted))
    }

    /// Returns the opening set, the store and the history, once the lock is gone. It takes no memory.
    pub(crate) fn into_parts(self) -> (ItemSet, S, Vec<Recorded>)
        ensures parts { (result.0 ≡ self.opening) × (S.contents result.1 ≡ record { directory = self.directory; items = self.items }) × (result.2.items ≡ self.history) }
        ensures replays { Replays (S.contents result.1).directory P.means result.0 result.2.items (S.contents result.1).items }
    {
        (self.opening, self.store, self.history)
    }
}
