//! Adding the items of a container to a store.

ghost use Rattle.std.specs.Prelude.{◌≡◌, ◌+◌, IfErr, IfOk, OnErr, OnOk};
ghost use Rattle.std.specs.List.{All};
ghost use Rattle.std.specs.List.Sorted.{IsStrictlySortedBy};
ghost use Rattle.item_forms.specs.Pieces.{by_bytes};
ghost use Rattle.evidence_item.specs.Checking.{IsChecked};
ghost use Rattle.containers.specs.declared.fault.Cause.TheVariants as cause;
ghost use Rattle.evidence_set.specs.ItemSets.{Join, count, pieces, set_of};
ghost use Rattle.evidence.specs.Contents.{with_items};

use crate::evidence::Evidence;
use containers::{Cause, ImportFault};
use evidence_item::Checked;
use replay_verifier::Program;

/// Adds all of the items to a store, or none. Returns how many of them are new. The items ascend by their encodings, and were
/// checked under the store's directory.
///
/// If memory runs out, it reports `Memory` (99) at the number of the items, and the store is as it was.
pub fn add_all<P: Program, S: Evidence<P>>(
    store: &mut S,
    items: Vec<Checked<P>>,
) -> Result<u64, ImportFault>
    requires checked { All (IsChecked (S.contents store.old).directory P.means) items.items }
    requires ascending { IsStrictlySortedBy by_bytes (pieces items.items) }
    ensures told { IfOk result (λ new. count (S.contents store.old).items + new ≡ count (S.contents store.new).items) }
    ensures joined { OnOk result (S.contents store.new ≡ with_items (S.contents store.old) (Join (S.contents store.old).items (set_of items.items))) }
    ensures memory { IfErr result (λ f. f.cause ≡ cause.Memory) }
    ensures refused { OnErr result (S.contents store.new ≡ S.contents store.old) }
{
    let count = items.len() as u64;
    match store.take_all(items) {
        Ok(new) => Ok(new),
        Err(_) => Err(ImportFault {
            item: count,
            cause: Cause::Memory,
        }),
    }
}
