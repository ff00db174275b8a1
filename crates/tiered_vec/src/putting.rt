//! Putting an element into tiers.

ghost use Rattle.std.specs.Prelude.{◌≡◌, ◌+◌, ◌<◌, ◌≤◌, ℕ, length};
ghost use Rattle.std.specs.List.{insert};
ghost use Rattle.tiered_vec.specs.within.Tiering.{AreFilled, HaveRoom, capacities, items_of, lengths};

use crate::tier::put;
use std::collections::VecDeque;

/// Puts an element at a place of the whole list. What drops out of a tier goes to the front of the next one.
pub(crate) fn put_in<T: Drop>(tiers: &mut [VecDeque<T>], size: usize, place: usize, x: T)
    requires some { 0 < size }
    requires inside { place ≤ length (items_of tiers.old) }
    requires filled { AreFilled size (lengths tiers.old) (length (items_of tiers.old)) }
    requires room { HaveRoom size (capacities tiers.old) (length (items_of tiers.old) + 1) }
    ensures items { items_of tiers.new ≡ insert (items_of tiers.old) place x }
    ensures filled { AreFilled size (lengths tiers.new) (length (items_of tiers.old) + 1) }
    ensures room { (n : ℕ) → HaveRoom size (capacities tiers.old) n → HaveRoom size (capacities tiers.new) n }
{
    let mut tier = place / size;
    let mut at = place % size;
    let mut carried = x;
    while let Some(last) = put(&mut tiers[tier], size, at, carried) {
        carried = last;
        tier += 1;
        at = 0;
    }
}
