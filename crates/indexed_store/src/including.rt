//! Which items the set has.

ghost use Rattle.std.specs.Prelude.{◌≡◌, ◌↔◌, IsTrue};
ghost use Rattle.std.specs.List.{list_all};
ghost use Rattle.evidence_item.specs.Checking.{Checked as TheChecked};
ghost use Rattle.evidence_set.specs.ItemSets.{IsWithin, contains, set_of};
ghost use Rattle.kept_evidence.specs.Kept.{is_kept};
ghost use Rattle.indexed_store.specs.within.Resting.{IsOrdered};

use crate::index::Index;
use evidence_item::Item;
use kept_items::KeptItem;
use node_tables::{gap_of, gap_of_kept};

/// Returns whether one of the items is this one. It takes a binary search.
pub(crate) fn has<P>(index: &Index<P>, item: &Item) -> bool
    requires { IsOrdered index.now }
    ensures { result ≡ is_kept index.now.items.items item.now }
{
    match gap_of(&index.items, &index.order, item) {
        Ok(_) => true,
        Err(_) => false,
    }
}

/// Returns whether the set has the item.
pub(crate) fn holds<P>(index: &Index<P>, item: &Item) -> bool
    requires { IsOrdered index.now }
    ensures { result ≡ contains (set_of index.now.items.items) item.now }
{
    has(index, item)
}

/// Returns whether the set has an item of another store.
pub(crate) fn keeps<P>(index: &Index<P>, other: &KeptItem<P>) -> bool
    requires { IsOrdered index.now }
    ensures { result ≡ is_kept index.now.items.items other.now.item }
{
    match gap_of_kept(&index.items, &index.order, other) {
        Ok(_) => true,
        Err(_) => false,
    }
}

/// Returns whether each of the other items is kept. It looks each up once.
fn keeps_each<P>(index: &Index<P>, others: &[KeptItem<P>]) -> bool
    requires { IsOrdered index.now }
    ensures { result ≡ list_all (λ (c : TheChecked). is_kept index.now.items.items c.item) others.now }
{
    for other in others {
        if !keeps(index, other) {
            return false;
        }
    }
    true
}

/// Returns whether these items include the set of the other items. It takes no memory.
pub(crate) fn includes<P>(index: &Index<P>, others: &[KeptItem<P>]) -> bool
    requires { IsOrdered index.now }
    ensures { IsTrue result ↔ IsWithin (set_of others.now) (set_of index.now.items.items) }
{
    keeps_each(index, others)
}
