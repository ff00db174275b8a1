//! Sets of items that are only kept and compared.

ghost use Rattle.std.specs.Prelude.{◌≡◌, ◌↔◌, IfOk, IsTrue, map};
ghost use Rattle.std.specs.List.Sorted.{IsStrictlySortedBy};
ghost use Rattle.item_forms.specs.Pieces.{by_bytes};
ghost use Rattle.evidence_set.specs.ItemSets.{insert_all, listed, none};

use evidence_item::Item;
use evidence_set::laws::sets_are_lists;
use item_forms::laws::items_are_equal_by_fields;
use outcome::Memory;
use std::alloc::Global;
use std::marker::Model;

/// A set of items, in ascending order of their encodings. Each item is in it once. A contract sees the set.
#[derive(Debug, Drop)]
pub struct ItemSet {
    items: Vec<Item>,
}

impl Model for ItemSet {
    ghost use Rattle.std.specs.List.Sorted.{IsStrictlySortedBy};
    ghost use Rattle.item_forms.specs.Pieces.{by_bytes};
    ghost use Rattle.evidence_set.specs.ItemSets.{Items, insert_all, none};
    ghost use Rattle.evidence.specs.Contents.{items_code};

    ghost Value = { Items };

    ghost coded = { items_code };

    ghost view = { λ s. insert_all none s.items.items };

    ghost invariant = { λ s. IsStrictlySortedBy by_bytes s.items.items };
}

impl ItemSet {
    /// Makes a set of items that ascend by their encodings, each once. It takes no memory.
    pub fn from_vec(items: Vec<Item>) -> ItemSet
        requires { IsStrictlySortedBy by_bytes items.items }
        ensures { result ≡ insert_all none items.items }
    {
        ItemSet { items }
    }

    /// Returns the items, in ascending order of their encodings. It takes no memory.
    pub fn items(&self) -> &[Item]
        ensures { result.now ≡ listed self.now }
    {
        sets_are_lists();
        self.items.as_slice()
    }

    /// Returns the items, in ascending order of their encodings, in the `Vec` in which the set keeps them. It takes no memory.
    pub fn into_vec(self) -> Vec<Item>
        ensures { result.items ≡ listed self }
    {
        sets_are_lists();
        self.items
    }

    /// Returns a copy of the set, or `Memory` if a growth is refused.
    pub fn try_clone(&self, alloc: Global) -> Result<ItemSet, Memory>
        ensures { IfOk result (λ copy. copy ≡ self.now) }
    {
        let items = copies(alloc, self.items.as_slice())?;
        Ok(ItemSet { items })
    }

    /// Returns whether the two have the same items. It takes no memory.
    pub fn is(&self, other: &ItemSet) -> bool
        ensures { IsTrue result ↔ (self.now ≡ other.now) }
    {
        sets_are_lists();
        items_are_equal_by_fields();
        self.items.as_slice() == other.items.as_slice()
    }
}

/// Returns copies of the items.
fn copies(alloc: Global, items: &[Item]) -> Result<Vec<Item>, Memory>
    ensures { IfOk result (λ copies. copies.items ≡ items.now) }
{
    let mut copies = Vec::with_capacity(alloc, items.len())?;
    for item in items {
        copies.push(item.try_clone(alloc)?)?;
    }
    Ok(copies)
}
