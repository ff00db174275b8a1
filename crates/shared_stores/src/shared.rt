//! Stores that callers share.

ghost use Rattle.std.specs.Prelude.{◌≡◌, ◌↔◌, ◌≤◌, false, Err, IfErr, IfOk, OnErr};
ghost use Rattle.authenticators.specs.Directory.{is_listed};
ghost use Rattle.evidence_item.specs.Checking.{IsChecked};
ghost use Rattle.shared_stores.specs.declared.fault.QuestionFault.TheVariants as ask;
ghost use Rattle.shared_stores.specs.declared.history.Call.TheVariants.{Ask, Export, Merge, Take};
ghost use Rattle.shared_stores.specs.declared.history.Given.TheVariants.{Bytes, Merged, Says, Took};
ghost use Rattle.parallel_checking.specs.declared.limits.TheConstants.{MOST_WORKERS};
ghost use Rattle.shared_stores.specs.Closing.{fresh};
ghost use Rattle.shared_stores.specs.Histories.{noted};

use crate::copying::{copies_of, item_and_copies};
use crate::fault::{CallFault, QuestionFault};
use crate::history::{Call, Given, Recorded};
use crate::item_set::ItemSet;
use crate::kept::Kept;
use crate::pass::Pass;
use authenticators::{Directory, NodeId};
use evidence::{Evidence, TakeRefused};
use evidence_item::{Checked, Item};
use evidence_set::Indication;
use outcome::Memory;
use replay_verifier::Program;
use std::alloc::Global;
use std::fmt;
use std::marker::Model;
use std::sync::{Mutex, Wait};
use thiserror::Error;

/// A store under a lock. Beside the lock are the directory, the number of callers, and the set that the store was opened with. A contract
/// sees what is beside the lock.
///
/// Each call locks the store, is one step of its history, and is noted in the caller's pass. What can be made ready is made before the lock
/// is taken. Under the lock nothing is checked, no signature is verified and no content is hashed. A call that is refused is neither in the
/// history nor in the pass.
///
/// All calls but [`open`](SharedStore::open), [`directory`](SharedStore::directory) and [`close`](SharedStore::close) may wait for other
/// callers. What their contracts say holds when they return.
#[derive(Drop)]
pub struct SharedStore<P: Program, S: Evidence<P>> {
    pub(crate) alloc: Global,
    pub(crate) directory: Directory,
    pub(crate) callers: usize,
    pub(crate) opening: ItemSet,
    pub(crate) locked: Mutex<Kept<P, S>>,
}

impl<P: Program, S: Evidence<P>> Model for SharedStore<P, S> {
    ghost use Rattle.shared_stores.specs.Shares.{Share, share_code};

    ghost Value = { Share };

    ghost coded = { share_code };

    ghost view = { λ s. record { directory = s.directory; callers = s.callers; opening = s.opening } };
}

/// A store that could not be shared, since a growth was refused. It is given back.
#[derive(Drop, Error)]
#[error("memory ran out")]
pub struct OpenRefused<S> {
    /// The store.
    pub store: S,
}

/// Shows nothing of the store.
impl<S> fmt::Debug for OpenRefused<S> {
    fn fmt<W: fmt::Write>(&self, f: &mut fmt::Formatter<W>) -> fmt::Result {
        f.write_str("OpenRefused")
    }
}

/// A checked item that could not be taken. It is given back.
#[derive(Debug, Drop, Error)]
#[error("the item is not taken: {fault}")]
pub struct NotTaken<P> {
    /// The item.
    pub checked: Checked<P>,
    /// Why it was not taken.
    pub fault: CallFault,
}

/// Makes an empty pass for each number below the count.
fn fresh_passes(alloc: Global, callers: usize) -> Result<Vec<Pass>, Memory>
    ensures { IfOk result (λ v. v.items ≡ fresh callers) }
{
    (0..callers).map(|n| Pass::new(alloc, n)).collect(alloc)
}

/// Returns what a shared store has beside its store: the store's directory, its items twice, and a pass for each caller.
fn parts_of<P: Program, S: Evidence<P>>(
    alloc: Global,
    store: &S,
    callers: usize,
) -> Result<(Directory, ItemSet, ItemSet, Vec<Pass>), Memory>
    ensures directory { IfOk result (λ parts. parts.0 ≡ (S.contents store.now).directory) }
    ensures opening { IfOk result (λ parts. (parts.1 ≡ (S.contents store.now).items) × (parts.2 ≡ (S.contents store.now).items)) }
    ensures passes { IfOk result (λ parts. parts.3.items ≡ fresh callers) }
{
    let directory = store.directory().try_clone()?;
    let opening = copies_of(alloc, store)?;
    let kept = opening.try_clone(alloc)?;
    let passes = fresh_passes(alloc, callers)?;
    Ok((directory, opening, kept, passes))
}

impl<P: Program, S: Evidence<P>> SharedStore<P, S> {
    /// Shares a store among so many callers: 1 to [`MOST_WORKERS`](parallel_checking::MOST_WORKERS). Each caller gets an empty pass. The
    /// passes are numbered from 0. The call is refused only if a growth is refused, and then it gives the store back.
    pub fn open(
        alloc: Global,
        store: S,
        callers: usize,
    ) -> Result<(SharedStore<P, S>, Vec<Pass>), OpenRefused<S>>
        requires { (1 ≤ callers) × (callers ≤ MOST_WORKERS) }
        ensures opened { IfOk result (λ r. r.0 ≡ record { directory = (S.contents store).directory; callers = callers; opening = (S.contents store).items }) }
        ensures passes { IfOk result (λ r. r.1.items ≡ fresh callers) }
        ensures given_back { IfErr result (λ refused. refused.store ≡ store) }
    {
        let Ok((directory, opening, kept, passes)) = parts_of(alloc, &store, callers) else {
            return Err(OpenRefused { store });
        };
        let shared = SharedStore {
            alloc,
            directory,
            callers,
            opening,
            locked: Mutex::new(Kept::new(alloc, kept, store)),
        };
        Ok((shared, passes))
    }

    /// Returns the directory of the store that was opened. It takes no memory, and waits for nobody.
    pub fn directory(&self) -> &Directory
        ensures { result.now ≡ self.now.directory }
    {
        &self.directory
    }

    /// Takes an item that was checked under the directory, and returns whether it was new. If it is refused, the item is given back, with
    /// `DirectoryChanged` (96) or `Memory`. If the checked item does not keep its findings, they are found before the lock is taken.
    pub fn take<R: Wait>(
        &self,
        rt: &R,
        pass: &mut Pass,
        checked: Checked<P>,
    ) -> Result<bool, NotTaken<P>>
        requires { IsChecked self.now.directory P.means checked }
        ensures noted { IfOk result (λ new. pass.new ≡ noted pass.old (Take checked.item) (Took new)) }
        ensures given_back { IfErr result (λ refused. (refused.checked.item ≡ checked.item) × (refused.checked.verdict ≡ checked.verdict) × IsChecked self.now.directory P.means refused.checked) }
        ensures refused { OnErr result (pass.new ≡ pass.old) }
    {
        let mut checked = checked;
        let made = item_and_copies(self.alloc, &self.directory, &mut checked);
        let (Ok((noted, copy)), Ok(())) = (made, pass.calls.reserve(1)) else {
            return Err(out_of_memory(checked));
        };
        let new = self.take_locked(rt, pass.number, checked, copy)?;
        let call = Recorded::new(pass.number, Call::Take(noted), Given::Took(new));
        pass.calls.push_reserved(call);
        Ok(new)
    }

    /// Takes an item under the lock. The copy is for the history.
    fn take_locked<R: Wait>(
        &self,
        rt: &R,
        caller: usize,
        checked: Checked<P>,
        copy: Item,
    ) -> Result<bool, NotTaken<P>>
        requires checked { IsChecked self.now.directory P.means checked }
        requires copy { copy ≡ checked.item }
        ensures given_back { IfErr result (λ refused. (refused.checked.item ≡ checked.item) × (refused.checked.verdict ≡ checked.verdict) × IsChecked self.now.directory P.means refused.checked) }
    {
        let mut kept = self.locked.lock(rt);
        if !kept.is_under(&self.directory) {
            return Err(NotTaken {
                checked,
                fault: CallFault::DirectoryChanged,
            });
        }
        match kept.take(caller, checked, copy) {
            Ok(new) => Ok(new),
            Err(TakeRefused(checked)) => Err(out_of_memory(checked)),
        }
    }

    /// Merges a store under the same directory, and returns how many of its items were new. It reports `DirectoryChanged` (96) or `Memory`.
    pub fn merge<R: Wait>(&self, rt: &R, pass: &mut Pass, other: &S) -> Result<u64, CallFault>
        requires { (S.contents other.now).directory ≡ self.now.directory }
        ensures noted { IfOk result (λ new. pass.new ≡ noted pass.old (Merge (S.contents other.now).items) (Merged new)) }
        ensures refused { OnErr result (pass.new ≡ pass.old) }
    {
        let copies = copies_of(self.alloc, other)?;
        let noted = copies.try_clone(self.alloc)?;
        pass.calls.reserve(1)?;
        let mut kept = self.locked.lock(rt);
        if !kept.is_under(&self.directory) {
            return Err(CallFault::DirectoryChanged);
        }
        let new = kept.merge(pass.number, other, copies)?;
        let call = Recorded::new(pass.number, Call::Merge(noted), Given::Merged(new));
        pass.calls.push_reserved(call);
        Ok(new)
    }

    /// Returns what the items say of the node. It reports `UnknownNode` (44) if the directory does not list the node, before anything else.
    /// It may also report `DirectoryChanged` (96) or `Memory`.
    pub fn ask<R: Wait>(
        &self,
        rt: &R,
        pass: &mut Pass,
        node: NodeId,
    ) -> Result<Indication, QuestionFault>
        ensures noted { IfOk result (λ says. pass.new ≡ noted pass.old (Ask node) (Says says)) }
        ensures unknown { (result ≡ Err ask.UnknownNode) ↔ (is_listed self.now.directory node ≡ false) }
        ensures refused { OnErr result (pass.new ≡ pass.old) }
    {
        if !self.directory.contains(node) {
            return Err(QuestionFault::UnknownNode);
        }
        pass.calls.reserve(1)?;
        let mut kept = self.locked.lock(rt);
        if !kept.is_under(&self.directory) {
            return Err(QuestionFault::DirectoryChanged);
        }
        let says = kept.ask(pass.number, node)?;
        let call = Recorded::new(pass.number, Call::Ask(node), Given::Says(says));
        pass.calls.push_reserved(call);
        Ok(says)
    }

    /// Returns the text of the items, which is one for each set: the container `PRSTORE2`. It reports `DirectoryChanged` (96) or `Memory`.
    pub fn export<R: Wait>(&self, rt: &R, pass: &mut Pass) -> Result<Vec<u8>, CallFault>
        ensures noted { IfOk result (λ text. pass.new ≡ noted pass.old Export (Bytes text.items)) }
        ensures refused { OnErr result (pass.new ≡ pass.old) }
    {
        pass.calls.reserve(1)?;
        let mut kept = self.locked.lock(rt);
        if !kept.is_under(&self.directory) {
            return Err(CallFault::DirectoryChanged);
        }
        let (text, noted) = kept.export(self.alloc, pass.number)?;
        let call = Recorded::new(pass.number, Call::Export, Given::Bytes(noted));
        pass.calls.push_reserved(call);
        Ok(text)
    }
}

/// Returns the refusal `Memory` with the item, since a growth was refused.
fn out_of_memory<P>(checked: Checked<P>) -> NotTaken<P>
    ensures { result.checked ≡ checked }
{
    NotTaken {
        checked,
        fault: CallFault::Memory,
    }
}
