//! Taking an element out of tiers.

ghost use Rattle.std.specs.Prelude.{◌≡◌, ◌+◌, ◌-◌, ◌/◌, ◌<◌, ℕ, false, length, slice_index, true};
ghost use Rattle.std.specs.List.{remove};
ghost use Rattle.tiered_vec.specs.within.Tiering.{AreFilled, HaveRoom, IsPulled, capacities, items_of, lengths};

use crate::tier::take;
use std::collections::VecDeque;

/// Moves the first element of the next tier to the end of this one, if there is such an element. Returns whether it did.
fn pull<T: Drop>(tiers: &mut [VecDeque<T>], tier: usize) -> bool
    requires here { tier < length tiers.old }
    requires gap { slice_index (lengths tiers.old) tier < slice_index (capacities tiers.old) tier }
    ensures items { items_of tiers.new ≡ items_of tiers.old }
    ensures capacities { capacities tiers.new ≡ capacities tiers.old }
    ensures moved { result ≡ true → IsPulled (lengths tiers.old) (lengths tiers.new) tier }
    ensures same { result ≡ false → lengths tiers.new ≡ lengths tiers.old }
    ensures last { result ≡ false → slice_index (lengths tiers.old) (tier + 1) ≡ 0 }
{
    if tier + 1 >= tiers.len() {
        return false;
    }
    let Some(first) = tiers[tier + 1].pop_front() else {
        return false;
    };
    tiers[tier].push_back_reserved(first);
    true
}

/// Takes out the element at a place of the whole list. Each tier behind gives its first element to the one before.
pub(crate) fn take_out<T: Drop>(tiers: &mut [VecDeque<T>], size: usize, place: usize)
    requires some { 0 < size }
    requires inside { place < length (items_of tiers.old) }
    requires filled { AreFilled size (lengths tiers.old) (length (items_of tiers.old)) }
    requires there { place / size < length tiers.old }
    ensures items { items_of tiers.new ≡ remove (items_of tiers.old) place }
    ensures filled { AreFilled size (lengths tiers.new) (length (items_of tiers.old) - 1) }
    ensures room { (n : ℕ) → HaveRoom size (capacities tiers.old) n → HaveRoom size (capacities tiers.new) n }
{
    let mut tier = place / size;
    take(&mut tiers[tier], place % size);
    while pull(tiers, tier) {
        tier += 1;
    }
}
