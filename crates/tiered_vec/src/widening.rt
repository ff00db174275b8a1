//! Moving the elements of tiers into wider ones.

ghost use Rattle.std.specs.Prelude.{◌≡◌, ◌+◌, ◌≤◌, ◌++◌, length};
ghost use Rattle.std.specs.VecDeque.{deque_len};
ghost use Rattle.tiered_vec.specs.within.Tiering.{items_of};

use crate::tiered_vec::TieredVec;
use std::collections::VecDeque;

/// Moves the elements of a tier to the end of the list.
fn append<T: Drop>(list: &mut TieredVec<T>, tier: VecDeque<T>)
    requires room { length tier.items ≤ list.old.room }
    ensures items { list.new.items ≡ list.old.items ++ tier.items }
    ensures room { list.old.room ≤ list.new.room + length tier.items }
{
    let mut left = tier;
    while let Some(x) = left.pop_front() {
        let end = list.len();
        list.insert(end, x);
    }
}

/// Moves the elements of all tiers to the end of the list.
pub(crate) fn append_all<T: Drop>(list: &mut TieredVec<T>, tiers: Vec<VecDeque<T>>)
    requires room { length (items_of tiers.items) ≤ list.old.room }
    ensures items { list.new.items ≡ list.old.items ++ items_of tiers.items }
    ensures room { list.old.room ≤ list.new.room + length (items_of tiers.items) }
{
    for tier in tiers {
        append(list, tier);
    }
}
