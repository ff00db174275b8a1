//! One tier. It is a ring, and it has at most as many elements as a full tier of its list.

ghost use Rattle.std.specs.Prelude.{◌≡◌, ◌↔◌, ◌+◌, ◌<◌, ◌≤◌, ◌++◌, IsSome, OnOk, min};
ghost use Rattle.std.specs.List.{insert, remove};
ghost use Rattle.std.specs.Option.{option_to_list};
ghost use Rattle.std.specs.VecDeque.{deque_capacity, deque_len};

use outcome::Memory;
use std::collections::VecDeque;

/// How many elements a full tier of a short list has.
pub(crate) const LEAST: usize = 1024;

/// How many elements a full tier has at most.
const GREATEST: usize = 1 << 20;

/// Returns how many elements a full tier has in a list of `most` elements. These are at least four times as many as there are
/// tiers, but at most `GREATEST`.
pub(crate) fn size_for(most: usize) -> usize
    ensures { LEAST ≤ result }
{
    let mut size = LEAST;
    while size < GREATEST && size.saturating_mul(size / 4) < most {
        size *= 2;
    }
    size
}

/// Puts an element at a place of a tier that has room for it.
fn put_at<T: Drop>(tier: &mut VecDeque<T>, place: usize, x: T)
    requires inside { place ≤ deque_len tier.old }
    requires room { deque_len tier.old < deque_capacity tier.old }
    ensures items { tier.new.items ≡ insert tier.old.items place x }
    ensures len { deque_len tier.new ≡ deque_len tier.old + 1 }
    ensures capacity { deque_capacity tier.old ≤ deque_capacity tier.new }
{
    if place == 0 {
        tier.push_front_reserved(x);
        return;
    }
    if tier.insert(place, x).is_err() {
        unreachable!();
    }
}

/// Puts an element at a place of a tier. If the tier is full, its last element drops out, and is returned.
pub(crate) fn put<T: Drop>(tier: &mut VecDeque<T>, size: usize, place: usize, x: T) -> Option<T>
    requires inside { place ≤ deque_len tier.old }
    requires below { place < size }
    requires most { deque_len tier.old ≤ size }
    requires room { deque_len tier.old < size → deque_len tier.old < deque_capacity tier.old }
    ensures items { tier.new.items ++ option_to_list result ≡ insert tier.old.items place x }
    ensures len { deque_len tier.new ≡ min size (deque_len tier.old + 1) }
    ensures full { IsSome result ↔ (deque_len tier.old ≡ size) }
    ensures capacity { deque_capacity tier.old ≤ deque_capacity tier.new }
{
    if tier.len() < size {
        put_at(tier, place, x);
        return None;
    }
    match tier.pop_back() {
        None => unreachable!(),
        Some(last) => {
            put_at(tier, place, x);
            Some(last)
        }
    }
}

/// Makes room for `most` elements in all, at most those of a full tier. It grows as a `Vec` does, up to a full tier.
pub(crate) fn grow<T>(tier: &mut VecDeque<T>, size: usize, most: usize) -> Result<(), Memory>
    requires { most ≤ size }
    ensures items { tier.new.items ≡ tier.old.items }
    ensures len { deque_len tier.new ≡ deque_len tier.old }
    ensures capacity { deque_capacity tier.old ≤ deque_capacity tier.new }
    ensures room { OnOk result (most ≤ deque_capacity tier.new) }
{
    if most <= tier.capacity() {
        return Ok(());
    }
    if most > size / 2 {
        return tier.reserve_exact(size - tier.len());
    }
    tier.reserve(most - tier.len())
}

/// Takes out the element at a place that is there.
pub(crate) fn take<T: Drop>(tier: &mut VecDeque<T>, place: usize)
    requires { place < deque_len tier.old }
    ensures items { tier.new.items ≡ remove tier.old.items place }
    ensures len { deque_len tier.new + 1 ≡ deque_len tier.old }
    ensures capacity { deque_capacity tier.new ≡ deque_capacity tier.old }
{
    if tier.remove(place).is_none() {
        unreachable!();
    }
}
