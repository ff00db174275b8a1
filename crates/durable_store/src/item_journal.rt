//! The journal of a store's items. It is begun with its basis, and repaired when an append stops.

ghost use Rattle.std.specs.Prelude.{◌≡◌, ◌⊎◌, ◌<◌, ◌≤◌, ◌^◌, ◌++◌, true, false, length, None, IfErr, IfOk, OnOk, IsErrOf, []};
ghost use Rattle.journal.specs.Device.{LeavesOnly};
ghost use Rattle.journal.specs.Journal.{IsBeforeOrAfter, IsClosed, IsSettled, StandsFor, recovered, size_of, texts_of};
ghost use Rattle.journal.specs.declared.blocks.TheConstants.{MOST_GROUP};
ghost use Rattle.durable_store.specs.Calls.{behind_basis, closed_by};
ghost use Rattle.std.specs.Prelude.{List};
ghost use Rattle.item_forms.specs.Pieces.{Piece};
ghost use Rattle.evidence_set.specs.ItemSets.{Items, insert_all};
ghost use Rattle.durable_store.specs.Keeping.{Has, Keeps};
ghost use Rattle.durable_store.specs.within.Journals.{IsOfGroup};

use crate::fault::TakeFault;
use journal::{AppendFault, Device, DeviceFault, Journal};
use outcome::Memory;
use std::alloc::Global;

/// A journal of items, with the texts with which it begins.
#[derive(Drop)]
pub(crate) struct ItemJournal<D: Device> {
    pub(crate) texts: Journal<D>,
    /// The basis.
    pub(crate) basis: Vec<Vec<u8>>,
    /// Whether the basis is in the journal.
    pub(crate) is_begun: bool,
}

/// Repairs the journal after an append that stopped. It returns what stopped the append, or `Lost` if the journal cannot be repaired.
fn repaired<D: Device>(journal: &mut Journal<D>, stopped: DeviceFault) -> TakeFault
    requires closed { IsClosed D.seen D.may_leave journal.old }
    ensures settled { closed_by result ≡ None → IsSettled D.seen D.may_leave journal.new }
    ensures same { recovered (D.seen journal.new.device) ≡ recovered (D.seen journal.old.device) }
    ensures any_moment { LeavesOnly D.moment D.left_since journal.old.device journal.new.device (StandsFor (recovered (D.seen journal.old.device))) }
    ensures later { D.faults journal.old.device ≤ D.faults journal.new.device }
    ensures cause { (result ≡ TakeFault.DiskFailed) ⊎ (result ≡ TakeFault.Lost DeviceFault.Failed) → stopped ≡ DeviceFault.Failed }
    ensures fits { (result ≡ TakeFault.GroupTooLong) ⊎ (result ≡ TakeFault.JournalFull) → ⊥ }
{
    match journal.repair() {
        Err(_) => TakeFault::Lost(stopped),
        Ok(()) => match stopped {
            DeviceFault::Memory => TakeFault::Memory,
            DeviceFault::Failed => TakeFault::DiskFailed,
        },
    }
}

/// Adds a group to a settled journal. The journal is settled again after each error but `Lost`.
fn append<D: Device>(
    journal: &mut Journal<D>,
    alloc: Global,
    texts: &[Vec<u8>],
) -> Result<(), TakeFault>
    requires settled { IsSettled D.seen D.may_leave journal.old }
    requires some { 0 < length texts.now }

    ensures added { OnOk result (IsSettled D.seen D.may_leave journal.new
        × (recovered (D.seen journal.new.device) ≡ recovered (D.seen journal.old.device) ++ texts_of texts.now)) }
    ensures any_moment { LeavesOnly D.moment D.left_since journal.old.device journal.new.device
        (IsBeforeOrAfter (recovered (D.seen journal.old.device)) (texts_of texts.now)) }
    ensures stopped { IfErr result (λ e. closed_by e ≡ None → IsSettled D.seen D.may_leave journal.new
        × (recovered (D.seen journal.new.device) ≡ recovered (D.seen journal.old.device))) }
    ensures fits { OnOk result (size_of (texts_of texts.now) ≤ MOST_GROUP)
        × (IsErrOf result TakeFault.GroupTooLong → MOST_GROUP < size_of (texts_of texts.now)) }
    ensures cause { (IsErrOf result TakeFault.DiskFailed ⊎ IsErrOf result (TakeFault.Lost DeviceFault.Failed) → D.faults journal.old.device < D.faults journal.new.device)
        × (IsErrOf result TakeFault.JournalFull → 2 ^ 60 ≤ journal.old.end) }
{
    match journal.append(alloc, texts) {
        Ok(()) => Ok(()),
        Err(AppendFault::TooLong) => Err(TakeFault::GroupTooLong),
        Err(AppendFault::Full) => Err(TakeFault::JournalFull),
        Err(AppendFault::Memory) => Err(repaired(journal, DeviceFault::Memory)),
        Err(AppendFault::Failed) => Err(repaired(journal, DeviceFault::Failed)),
        Err(AppendFault::InDoubt(why)) => Err(TakeFault::Lost(why)),
    }
}

/// Returns copies of the texts, and behind them copies of further ones.
fn joined(alloc: Global, texts: &[Vec<u8>], further: &[Vec<u8>]) -> Result<Vec<Vec<u8>>, Memory>
    ensures { IfOk result (λ all. texts_of all.items ≡ texts_of texts.now ++ texts_of further.now) }
{
    let mut all = Vec::new(alloc);
    add_copies(alloc, &mut all, texts)?;
    add_copies(alloc, &mut all, further)?;
    Ok(all)
}

/// Adds copies of the texts behind those that there are.
fn add_copies(alloc: Global, all: &mut Vec<Vec<u8>>, texts: &[Vec<u8>]) -> Result<(), Memory>
    ensures { OnOk result (texts_of all.new.items ≡ texts_of all.old.items ++ texts_of texts.now) }
{
    for text in texts {
        all.push(text.to_vec(alloc)?)?;
    }
    Ok(())
}

impl<D: Device> ItemJournal<D> {
    /// Adds texts as one group. The basis goes in front of the first texts.
    pub(crate) fn write(&mut self, alloc: Global, texts: &[Vec<u8>]) -> Result<(), TakeFault>
        requires settled { IsSettled D.seen D.may_leave self.old.texts }
        requires some { 0 < length texts.now }

        ensures basis { self.new.basis ≡ self.old.basis }
        ensures written { OnOk result (IsSettled D.seen D.may_leave self.new.texts × (self.new.is_begun ≡ true)
            × (recovered (D.seen self.new.texts.device) ≡ recovered (D.seen self.old.texts.device) ++ behind_basis self.old.is_begun (texts_of self.old.basis.items) (texts_of texts.now))) }
        ensures any_moment { LeavesOnly D.moment D.left_since self.old.texts.device self.new.texts.device
            (IsBeforeOrAfter (recovered (D.seen self.old.texts.device)) (behind_basis self.old.is_begun (texts_of self.old.basis.items) (texts_of texts.now))) }
        ensures stopped { IfErr result (λ e. closed_by e ≡ None → IsSettled D.seen D.may_leave self.new.texts × (self.new.is_begun ≡ self.old.is_begun)
            × (recovered (D.seen self.new.texts.device) ≡ recovered (D.seen self.old.texts.device))) }
        ensures fits { OnOk result (size_of (behind_basis self.old.is_begun (texts_of self.old.basis.items) (texts_of texts.now)) ≤ MOST_GROUP)
            × (IsErrOf result TakeFault.GroupTooLong → MOST_GROUP < size_of (behind_basis self.old.is_begun (texts_of self.old.basis.items) (texts_of texts.now))) }
        ensures cause { (IsErrOf result TakeFault.DiskFailed ⊎ IsErrOf result (TakeFault.Lost DeviceFault.Failed) → D.faults self.old.texts.device < D.faults self.new.texts.device)
            × (IsErrOf result TakeFault.JournalFull → 2 ^ 60 ≤ self.old.texts.end) }
    {
        if self.is_begun {
            append(&mut self.texts, alloc, texts)?;
            return Ok(());
        }
        let group = joined(alloc, &self.basis, texts)?;
        append(&mut self.texts, alloc, &group)?;
        self.is_begun = true;
        Ok(())
    }

    /// Adds the texts of those items of a group that are not in the journal.
    pub(crate) fn write_new(&mut self, alloc: Global, texts: &[Vec<u8>]) -> Result<(), TakeFault>
        requires { IsSettled D.seen D.may_leave self.old.texts }

        ensures basis { self.new.basis ≡ self.old.basis }
        ensures settled { OnOk result (IsSettled D.seen D.may_leave self.new.texts) }
        ensures has { OnOk result ((E : Items) (group : List Piece) → IsOfGroup D.seen self.old E group (texts_of texts.now)
            → Has self.new.is_begun (texts_of self.new.basis.items) (insert_all E group) (recovered (D.seen self.new.texts.device))) }
        ensures any_moment { (E : Items) (group : List Piece) → IsOfGroup D.seen self.old E group (texts_of texts.now)
            → LeavesOnly D.moment D.left_since self.old.texts.device self.new.texts.device
            (λ file. Keeps (texts_of self.old.basis.items) E file ⊎ Keeps (texts_of self.old.basis.items) (insert_all E group) file) }
        ensures stopped { IfErr result (λ e. closed_by e ≡ None → IsSettled D.seen D.may_leave self.new.texts × (self.new.is_begun ≡ self.old.is_begun)
            × (recovered (D.seen self.new.texts.device) ≡ recovered (D.seen self.old.texts.device))) }
        ensures fits { OnOk result (size_of (behind_basis self.old.is_begun (texts_of self.old.basis.items) (texts_of texts.now)) ≤ MOST_GROUP)
            × (IsErrOf result TakeFault.GroupTooLong → MOST_GROUP < size_of (behind_basis self.old.is_begun (texts_of self.old.basis.items) (texts_of texts.now))) }
        ensures cause { (IsErrOf result TakeFault.DiskFailed ⊎ IsErrOf result (TakeFault.Lost DeviceFault.Failed) → D.faults self.old.texts.device < D.faults self.new.texts.device)
            × (IsErrOf result TakeFault.JournalFull → 2 ^ 60 ≤ self.old.texts.end) }
    {
        if texts.is_empty() {
            return Ok(());
        }
        self.write(alloc, texts)?;
        Ok(())
    }
}
