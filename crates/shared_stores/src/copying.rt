//! Copies of items, which are made before the lock is taken.

ghost use Rattle.std.specs.Prelude.{◌≡◌, ◌<◌, IfOk, Some, slice_get};
ghost use Rattle.evidence_item.specs.Checking.{IsChecked};
ghost use Rattle.evidence_set.specs.ItemSets.{count, listed};

use crate::item_set::ItemSet;
use authenticators::Directory;
use evidence::Evidence;
use evidence_item::{Checked, Item};
use evidence_set::laws::sets_are_lists;
use outcome::Memory;
use replay_verifier::Program;
use std::alloc::Global;

/// Returns a copy of the item at a place below the count.
fn copy_at<P: Program, S: Evidence<P>>(store: &S, n: u64) -> Result<Item, Memory>
    requires { n < count (S.contents store.now).items }
    ensures { IfOk result (λ x. slice_get (listed (S.contents store.now).items) n ≡ Some x) }
{
    sets_are_lists();
    let Some(checked) = store.item_at(n)? else {
        unreachable!();
    };
    Ok(checked.into_item())
}

/// Returns copies of the items of a store, ascending.
fn items_of<P: Program, S: Evidence<P>>(alloc: Global, store: &S) -> Result<Vec<Item>, Memory>
    ensures { IfOk result (λ items. items.items ≡ listed (S.contents store.now).items) }
{
    sets_are_lists();
    let mut items = Vec::new(alloc);
    for n in 0..store.count() {
        items.push(copy_at(store, n)?)?;
    }
    Ok(items)
}

/// Returns a set of copies of the items of a store.
pub(crate) fn copies_of<P: Program, S: Evidence<P>>(
    alloc: Global,
    store: &S,
) -> Result<ItemSet, Memory>
    ensures { IfOk result (λ copies. copies ≡ (S.contents store.now).items) }
{
    sets_are_lists();
    let items = items_of(alloc, store)?;
    Ok(ItemSet::from_vec(items))
}

/// Returns two copies of a checked item, after the item's findings are there.
pub(crate) fn item_and_copies<P: Program>(
    alloc: Global,
    directory: &Directory,
    checked: &mut Checked<P>,
) -> Result<(Item, Item), Memory>
    requires { IsChecked directory.now P.means checked.old }
    ensures copies { IfOk result (λ copies. (copies.0 ≡ checked.old.item) × (copies.1 ≡ checked.old.item)) }
    ensures same { (checked.new.item ≡ checked.old.item) × (checked.new.verdict ≡ checked.old.verdict) }
    ensures checked { IsChecked directory.now P.means checked.new }
{
    checked.find(alloc, directory)?;
    let first = checked.item().try_clone(alloc)?;
    let second = checked.item().try_clone(alloc)?;
    Ok((first, second))
}
