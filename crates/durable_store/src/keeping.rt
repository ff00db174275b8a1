//! How a group is written, and then taken.

ghost use Rattle.std.specs.Prelude.{◌≡◌, ◌⊎◌, ◌<◌, ◌≤◌, ◌^◌, None, IfErr, IfOk, OnOk, IsErrOf};
ghost use Rattle.std.specs.List.{All};
ghost use Rattle.evidence.specs.Contents.{with_items};
ghost use Rattle.evidence_item.specs.Checking.{IsChecked};
ghost use Rattle.evidence_set.specs.ItemSets.{IsWithin, insert_all, pieces};
ghost use Rattle.journal.specs.Device.{LeavesOnly};
ghost use Rattle.journal.specs.Journal.{size_of, texts_of};
ghost use Rattle.journal.specs.declared.blocks.TheConstants.{MOST_GROUP};
ghost use Rattle.durable_store.specs.Calls.{are_new, behind_basis, closed_by, unheld};
ghost use Rattle.durable_store.specs.Keeping.{Keeps, spellings};
ghost use Rattle.durable_store.specs.within.Journals.{IsReadyOf};

use crate::fault::TakeFault;
use crate::item_journal::ItemJournal;
use crate::taking::{new_texts, take_each};
use evidence::Evidence;
use evidence_item::Checked;
use journal::{Device, DeviceFault};
use replay_verifier::Program;
use std::alloc::Global;

/// Writes the texts of those items of the group that the store does not hold. Then it has the store take the group.
pub(crate) fn keep_group<P: Program, S: Evidence<P>, D: Device>(
    alloc: Global,
    journal: &mut ItemJournal<D>,
    store: &mut S,
    group: Vec<Checked<P>>,
) -> Result<Vec<bool>, TakeFault>
    requires { All (IsChecked (S.contents store.old).directory P.means) group.items × IsReadyOf D.seen D.may_leave (S.contents store.old).items journal.old }

    ensures same { (journal.new.basis ≡ journal.old.basis) × ((S.contents store.new).directory ≡ (S.contents store.old).directory) }
    ensures told { IfOk result (λ news. news.items ≡ are_new (S.contents store.old).items (pieces group.items)) }
    ensures taken { OnOk result (IsReadyOf D.seen D.may_leave (S.contents store.new).items journal.new
        × (S.contents store.new ≡ with_items (S.contents store.old) (insert_all (S.contents store.old).items (pieces group.items)))) }
    ensures within { IsWithin (S.contents store.old).items (S.contents store.new).items
        × IsWithin (S.contents store.new).items (insert_all (S.contents store.old).items (pieces group.items)) }
    ensures any_moment { LeavesOnly D.moment D.left_since journal.old.texts.device journal.new.texts.device
        (λ file. Keeps (texts_of journal.old.basis.items) (S.contents store.old).items file
        ⊎ Keeps (texts_of journal.old.basis.items) (insert_all (S.contents store.old).items (pieces group.items)) file) }
    ensures stopped { IfErr result (λ e. closed_by e ≡ None → IsReadyOf D.seen D.may_leave (S.contents store.new).items journal.new
        × (S.contents store.new ≡ S.contents store.old) × (journal.new.is_begun ≡ journal.old.is_begun)) }
    ensures cause { OnOk result (size_of (behind_basis journal.old.is_begun (texts_of journal.old.basis.items) (spellings (unheld (S.contents store.old).items (pieces group.items)))) ≤ MOST_GROUP)
        × (IsErrOf result TakeFault.GroupTooLong → MOST_GROUP < size_of (behind_basis journal.old.is_begun (texts_of journal.old.basis.items) (spellings (unheld (S.contents store.old).items (pieces group.items)))))
        × (IsErrOf result TakeFault.DiskFailed ⊎ IsErrOf result (TakeFault.Lost DeviceFault.Failed) → D.faults journal.old.texts.device < D.faults journal.new.texts.device)
        × (IsErrOf result TakeFault.JournalFull → 2 ^ 60 ≤ journal.old.texts.end) }
{
    let texts = new_texts::<P, S>(alloc, store, &group)?;
    let news = Vec::with_capacity(alloc, group.len())?;
    journal.write_new(alloc, &texts)?;
    match take_each::<P, S>(store, group, news) {
        Ok(news) => Ok(news),
        Err(_) => Err(TakeFault::Lost(DeviceFault::Memory)),
    }
}
