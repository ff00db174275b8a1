//! A store with the journal of its items.

ghost use Rattle.std.specs.Prelude.{◌≡◌, ◌⊎◌, ◌<◌, ◌≤◌, ◌^◌, None, IfErr, IfOk, OnOk, IsErrOf, is_ok};
ghost use Rattle.std.specs.List.{All};
ghost use Rattle.evidence_item.specs.Checking.{IsChecked};
ghost use Rattle.evidence_set.specs.ItemSets.{pieces};
ghost use Rattle.journal.specs.Journal.{covered, size_of};
ghost use Rattle.journal.specs.declared.blocks.TheConstants.{MOST_GROUP};
ghost use Rattle.durable_store.specs.Calls.{Called, are_new, closed_by, texts_for};

use crate::fault::TakeFault;
use crate::item_journal::ItemJournal;
use crate::keeping::keep_group;
use evidence::Evidence;
use evidence_item::Checked;
use journal::{Device, DeviceFault};
use replay_verifier::Program;
use std::alloc::Global;
use std::marker::{Model, PhantomData};

/// A store of evidence, and the journal that has a text for each of its items. It has one owner, who gives it groups of items one after the
/// other.
///
/// A contract sees the device, what the journal begins with and whether it is begun, the directory and the set of items, and why the store
/// is closed, if it is.
#[derive(Drop)]
pub struct DurableStore<P: Program, S: Evidence<P>, D: Device> {
    pub(crate) alloc: Global,
    pub(crate) journal: ItemJournal<D>,
    pub(crate) store: S,
    pub(crate) closed: Option<DeviceFault>,
    pub(crate) program: PhantomData<P>,
}

impl<P: Program, S: Evidence<P>, D: Device> Model for DurableStore<P, S, D> {
    ghost use Rattle.std.specs.Prelude.{MatchOption};
    ghost use Rattle.journal.specs.Journal.{texts_of};
    ghost use Rattle.durable_store.specs.Keeping.{Kept, kept_code};
    ghost use Rattle.durable_store.specs.within.Journals.{IsReadyOf};

    ghost Value = { Kept D };

    ghost coded = { kept_code D.code };

    ghost view = { λ s. record { device = s.journal.texts.device; basis = texts_of s.journal.basis.items; is_begun = s.journal.is_begun; contents = S.contents s.store; closed = s.closed } };

    // Until the store is closed, the journal is settled and has just the store's items.
    ghost invariant = { λ s. MatchOption s.closed (IsReadyOf D.seen D.may_leave (S.contents s.store).items s.journal) (λ _. Unit {0}) };
}

impl<P: Program, S: Evidence<P>, D: Device> DurableStore<P, S, D> {
    /// Returns the store.
    pub fn store(&self) -> &S
        ensures { S.contents result.now ≡ self.now.contents }
    {
        &self.store
    }

    /// Returns the device of the journal.
    pub fn device(&self) -> &D
        ensures { result.now ≡ self.now.device }
    {
        self.journal.texts.device()
    }

    /// Returns why the store is closed for good. Returns `None` if it is open.
    pub fn closed(&self) -> Option<DeviceFault>
        ensures { result ≡ self.now.closed }
    {
        self.closed
    }

    /// Returns how many bytes the journal's blocks take.
    pub fn journal_len(&self) -> usize {
        self.journal.texts.len()
    }

    /// Takes items that were checked under the store's directory. It returns for each whether it is new: neither in the store nor earlier
    /// in the group. At `Ok` each item is on the disk, and then in the store. An item that was there already is not written again.
    ///
    /// After any error but `Lost` the store has no item more, and the journal is as it was, repaired if need be. The store can be asked
    /// again, for example when a full disk has room again. After `Lost` (121) it is closed for good. The items of the group are in the
    /// journal all or not at all, and the store may have some of them. The process has to end. Whoever opens the journal again has what is
    /// in it.
    ///
    /// The other errors:
    ///
    /// - `GroupTooLong` (118), if the texts that must be written take more than a group may. They are those of the new items, and the basis
    ///   if the journal is not begun;
    /// - `JournalFull` (119), only if the journal takes 2^60 bytes or more;
    /// - `DiskFailed` (120), only if the device failed;
    /// - `Memory`, which may come in place of any of them.
    pub fn take_group(&mut self, group: Vec<Checked<P>>) -> Result<Vec<bool>, TakeFault>
        requires { All (IsChecked self.old.contents.directory P.means) group.items }

        ensures called { Called D.moment D.may_leave D.left_since self.old (record { group = pieces group.items; is_acknowledged = is_ok result }) self.new }
        ensures told { IfOk result (λ news. news.items ≡ are_new self.old.contents.items (pieces group.items)) }
        ensures refused { IfErr result (λ e. (closed_by e ≡ self.new.closed) × (self.new.closed ≡ None → self.new.contents ≡ self.old.contents)) }
        ensures open { OnOk result (self.new.closed ≡ None) }
        ensures fits { OnOk result (size_of (texts_for self.old (pieces group.items)) ≤ MOST_GROUP) }
        ensures too_long { IsErrOf result TakeFault.GroupTooLong → MOST_GROUP < size_of (texts_for self.old (pieces group.items)) }
        // The store does not give up by itself.
        ensures cause { (IsErrOf result TakeFault.DiskFailed ⊎ (IsErrOf result (TakeFault.Lost DeviceFault.Failed) × (self.old.closed ≡ None)) → D.faults self.old.device < D.faults self.new.device)
            × (IsErrOf result TakeFault.JournalFull → 2 ^ 60 ≤ covered (D.seen self.old.device)) }
    {
        if let Some(why) = self.closed {
            return Err(TakeFault::Lost(why));
        }
        match keep_group(self.alloc, &mut self.journal, &mut self.store, group) {
            Ok(news) => Ok(news),
            Err(fault) => {
                self.closed = fault.closed_by();
                Err(fault)
            }
        }
    }
}
