//! Making room in tiers, before anything is put in.

ghost use Rattle.std.specs.Prelude.{◌≡◌, ◌*◌, ◌<◌, ◌≤◌, ℕ, OnOk, length, slice_index};
ghost use Rattle.tiered_vec.specs.within.Tiering.{AreFilled, HaveRoom, capacities, items_of, lengths};

use crate::tier::grow;
use outcome::Memory;
use std::alloc::Global;
use std::collections::VecDeque;

/// Adds empty tiers, until there are enough for `most` elements. If memory runs out, some may have been added.
pub(crate) fn add_tiers<T: Drop>(
    tiers: &mut Vec<VecDeque<T>>,
    alloc: Global,
    size: usize,
    most: usize,
) -> Result<(), Memory>
    requires some { 0 < size }
    ensures items { items_of tiers.new.items ≡ items_of tiers.old.items }
    ensures filled { AreFilled size (lengths tiers.old.items) (length (items_of tiers.old.items)) → AreFilled size (lengths tiers.new.items) (length (items_of tiers.old.items)) }
    ensures room { (n : ℕ) → HaveRoom size (capacities tiers.old.items) n → HaveRoom size (capacities tiers.new.items) n }
    ensures enough { OnOk result (most ≤ size * length tiers.new.items) }
{
    let count = most.div_ceil(size);
    while tiers.len() < count {
        tiers.push(VecDeque::new(alloc))?;
    }
    Ok(())
}

/// Makes room for `most` elements in all, in the tiers from tier `first` on. Those before it are full.
pub(crate) fn grow_tiers<T: Drop>(
    tiers: &mut [VecDeque<T>],
    size: usize,
    first: usize,
    most: usize,
) -> Result<(), Memory>
    requires enough { most ≤ size * length tiers.old }
    requires within { first ≤ length tiers.old }
    requires full { (k : ℕ) → k < first → size ≤ slice_index (lengths tiers.old) k }
    ensures items { items_of tiers.new ≡ items_of tiers.old }
    ensures lengths { lengths tiers.new ≡ lengths tiers.old }
    ensures room { (n : ℕ) → HaveRoom size (capacities tiers.old) n → HaveRoom size (capacities tiers.new) n }
    ensures grown { OnOk result (HaveRoom size (capacities tiers.new) most) }
{
    for tier in first..tiers.len() {
        let full = tier.saturating_mul(size);
        grow(&mut tiers[tier], size, most.saturating_sub(full).min(size))?;
    }
    Ok(())
}
