//! The order of the items' encodings, as places.

ghost use Rattle.std.specs.Prelude.{◌≡◌, IfErr, IfOk, slice_get};
ghost use Rattle.item_forms.specs.Groups.{shown_group};
ghost use Rattle.kept_evidence.specs.Kept.{Keeps};
ghost use Rattle.node_tables.specs.Places.{IsGapAt, IsOrder, item_order_by};
ghost use Rattle.node_tables.specs.within.Placing.{group_order_by};

use evidence_item::Item;
use item_forms::Group;
use kept_items::KeptItem;
use std::cmp::Ordering;
use tiered_vec::{Probe, TieredVec};

/// Returns how the item at a place compares with another.
fn compare_at<P>(items: &[KeptItem<P>], place: u32, item: &Item) -> Ordering
    ensures { result ≡ item_order_by (slice_get items.now place) item.now }
{
    match items.get(place as usize) {
        None => Ordering::Greater,
        Some(kept) => kept.compare(item),
    }
}

/// Returns how the item at a place compares with another that is kept.
fn compare_kept_at<P>(items: &[KeptItem<P>], place: u32, other: &KeptItem<P>) -> Ordering
    ensures { result ≡ item_order_by (slice_get items.now place) other.now.item }
{
    match items.get(place as usize) {
        None => Ordering::Greater,
        Some(kept) => kept.compare_kept(other),
    }
}

/// Returns whether the item at a place stands before the group, in it or behind it.
fn compare_group_at<P>(items: &[KeptItem<P>], place: u32, group: &Group<'_>) -> Ordering
    ensures { result ≡ group_order_by (shown_group group.now) (slice_get items.now place) }
{
    match items.get(place as usize) {
        None => Ordering::Greater,
        Some(kept) => kept.compare_group(group),
    }
}

/// A search for an item among places.
#[derive_where(Clone, Copy)]
struct ItemProbe<'a, P> {
    items: &'a [KeptItem<P>],
    item: &'a Item,
}

impl<'a, P> Probe<u32> for ItemProbe<'a, P> {
    ghost use Rattle.std.specs.Prelude.{slice_get};
    ghost use Rattle.node_tables.specs.Places.{item_order_by};

    ghost order = { λ probe place. item_order_by (slice_get probe.items.now place) probe.item.now };

    fn compare(&self, place: &u32) -> Ordering {
        compare_at(self.items, *place, self.item)
    }
}

/// A search among places for an item that is kept elsewhere.
#[derive_where(Clone, Copy)]
pub(crate) struct KeptProbe<'a, P> {
    pub items: &'a [KeptItem<P>],
    pub kept: &'a KeptItem<P>,
}

impl<'a, P> Probe<u32> for KeptProbe<'a, P> {
    ghost use Rattle.std.specs.Prelude.{slice_get};
    ghost use Rattle.node_tables.specs.Places.{item_order_by};

    ghost order = { λ probe place. item_order_by (slice_get probe.items.now place) probe.kept.now.item };

    fn compare(&self, place: &u32) -> Ordering {
        compare_kept_at(self.items, *place, self.kept)
    }
}

/// A search for an item of a group among places.
#[derive_where(Clone, Copy)]
pub(crate) struct GroupProbe<'a, P> {
    pub items: &'a [KeptItem<P>],
    pub group: &'a Group<'a>,
}

impl<'a, P> Probe<u32> for GroupProbe<'a, P> {
    ghost use Rattle.std.specs.Prelude.{slice_get};
    ghost use Rattle.item_forms.specs.Groups.{shown_group};
    ghost use Rattle.node_tables.specs.within.Placing.{group_order_by};

    ghost order = { λ probe place. group_order_by (shown_group probe.group.now) (slice_get probe.items.now place) };

    fn compare(&self, place: &u32) -> Ordering {
        compare_group_at(self.items, *place, self.group)
    }
}

/// Looks up where the item stands in the order. Returns `Ok` with its place in the order if it is there, and else `Err` with the place
/// where it would stand. It takes a binary search.
pub fn gap_of<P>(items: &[KeptItem<P>], order: &TieredVec<u32>, item: &Item) -> Result<usize, usize>
    requires { IsOrder items.now order.now.items }
    ensures there { IfOk result (λ i. Keeps items.now item.now) }
    ensures gap { IfErr result (IsGapAt items.now order.now.items item.now) }
{
    order.search(&ItemProbe { items, item })
}

/// Looks up the same as [`gap_of`], for an item that is kept, here or elsewhere.
pub fn gap_of_kept<P>(
    items: &[KeptItem<P>],
    order: &TieredVec<u32>,
    kept: &KeptItem<P>,
) -> Result<usize, usize>
    requires { IsOrder items.now order.now.items }
    ensures there { IfOk result (λ i. Keeps items.now kept.now.item) }
    ensures gap { IfErr result (IsGapAt items.now order.now.items kept.now.item) }
{
    order.search(&KeptProbe { items, kept })
}
