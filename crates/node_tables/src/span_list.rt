//! Segments by their numbers.

ghost use Rattle.std.specs.Prelude.{◌≡◌, ◌↔◌, ◌⊎◌, ◌+◌, ◌≤◌, ◌<◌, [], ℕ, IfNone, IfSome, OnOk, false, length, slice_index_or, take, true, vec_capacity, vec_len};
ghost use Rattle.std.specs.List.{Contains};
ghost use Rattle.std.specs.List.Sorted.{IsPermutation};
ghost use Rattle.node_tables.specs.declared.span.Span.{Span as TheSpan};
ghost use Rattle.node_tables.specs.within.Spanning.{AreBounded, IsAround, IsLonger, NoneIsAround};

use crate::bounds::{Bounds, bound_from, joined};
use crate::span::Span;
use outcome::Memory;
use std::alloc::Global;
use std::marker::Model;

/// Segments in runs, one behind the other. Each run is longer than the next, and has its segments sorted by `low`. So n segments make at
/// most log n runs. A new segment joins the last runs that are as long as what stands behind them, as a binary counter carries. Beside each
/// segment stand the bounds of it and of those before it in its run, as far as a search that goes back can pass over them. So a put costs
/// O(log^2 n) amortised. A search costs O(log^2 n) for each segment that it finds, in whatever order the segments came. A contract sees the
/// segments, and for how many more there is room.
#[derive(Drop)]
pub struct SpanList {
    spans: Vec<Span>,
    bounds: Vec<Bounds>,
}

impl Model for SpanList {
    ghost use Rattle.std.specs.Prelude.{min, ◌-◌, vec_capacity, vec_len};
    ghost use Rattle.tiered_vec.specs.Tiers.{Tiered};
    ghost use Rattle.node_tables.specs.declared.span.Span.{Span as TheSpan};
    ghost use Rattle.node_tables.specs.within.Spanning.{AreBounded};

    ghost Value = { Tiered TheSpan };

    ghost view = { λ s. record { items = s.spans.items; room = min (vec_capacity s.spans - vec_len s.spans) (vec_capacity s.bounds - vec_len s.bounds) } };

    ghost invariant = { λ s. AreBounded s.spans.items s.bounds.items };
}

impl SpanList {
    /// Returns a list of no segments. It takes no memory.
    pub(crate) fn new(alloc: Global) -> SpanList
        ensures { result.items ≡ [] }
    {
        SpanList {
            spans: Vec::new(alloc),
            bounds: Vec::new(alloc),
        }
    }

    /// Returns all segments, in no order.
    pub(crate) fn as_slice(&self) -> &[Span]
        ensures { result.now ≡ self.now.items }
    {
        &self.spans
    }

    /// Makes room for so many more.
    pub(crate) fn reserve(&mut self, more: usize) -> Result<(), Memory>
        ensures same { self.new.items ≡ self.old.items }
        ensures kept { self.old.room ≤ self.new.room }
        ensures room { OnOk result (more ≤ self.new.room) }
    {
        self.spans.reserve(more)?;
        self.bounds.reserve(more)?;
        Ok(())
    }

    /// Puts a segment. There is room for it.
    pub(crate) fn put(&mut self, span: Span)
        requires { 1 ≤ self.old.room }
        ensures members { (q : TheSpan) → Contains self.new.items q ↔ (Contains self.old.items q ⊎ (q ≡ span)) }
        ensures room { self.old.room ≤ self.new.room + 1 }
    {
        put(&mut self.spans, &mut self.bounds, span);
    }

    /// Returns the place of the last segment before a place whose `low` is at most `from` and whose `last` is at least `to`.
    pub(crate) fn around(&self, from: u64, to: u64, before: usize) -> Option<usize>
        requires { before ≤ length self.now.items }
        ensures none { IfNone result (NoneIsAround from to self.now.items 0 before) }
        ensures some { IfSome result (λ k. (k < before) × ((d : TheSpan) → IsAround from to (slice_index_or self.now.items k d)) × NoneIsAround from to self.now.items (k + 1) before) }
    {
        last_around(&self.spans, &self.bounds, from, to, before)
    }
}

/// Returns whether the segment's `low` is at most `from` and its `last` at least `to`.
fn is_around(span: &Span, from: u64, to: u64) -> bool
    ensures yes { result ≡ true → IsAround from to span.now }
    ensures no { result ≡ false → IsAround from to span.now → ⊥ }
{
    span.low <= from && to <= span.last
}

/// Returns how many segments up to some place can be passed over. These are all that the bounds are of, if none of them can be around the
/// numbers. Else it is only the one at the place.
fn passed(bounds: &Bounds, from: u64, to: u64) -> usize
    requires { 1 ≤ bounds.now.count }
    ensures some { 1 ≤ result }
    ensures most { result ≤ bounds.now.count }
    ensures over { 1 < result → (bounds.now.low ≤ from → to ≤ bounds.now.last → ⊥) }
{
    if bounds.low <= from && to <= bounds.last {
        return 1;
    }
    bounds.count
}

/// Returns the place of the last segment before a place whose `low` is at most `from` and whose `last` is at least `to`.
fn last_around(
    spans: &[Span],
    bounds: &[Bounds],
    from: u64,
    to: u64,
    before: usize,
) -> Option<usize>
    requires bounded { AreBounded spans.now bounds.now }
    requires inside { before ≤ length spans.now }
    ensures none { IfNone result (NoneIsAround from to spans.now 0 before) }
    ensures some { IfSome result (λ k. (k < before) × ((d : TheSpan) → IsAround from to (slice_index_or spans.now k d)) × NoneIsAround from to spans.now (k + 1) before) }
{
    let mut end = before;
    while end > 0 {
        if is_around(&spans[end - 1], from, to) {
            return Some(end - 1);
        }
        end -= passed(&bounds[end - 1], from, to);
    }
    None
}

/// Sorts the segments from a place on by `low`.
fn sort_from(spans: &mut [Span], start: usize)
    requires { start ≤ length spans.old }
    ensures before { take start spans.new ≡ take start spans.old }
    ensures same { IsPermutation spans.old spans.new }
{
    spans[start..].sort_unstable_by_key(|span| span.low);
}

/// Puts a segment behind the others, sorts the last run again, and writes its bounds. There is room for it.
fn put(spans: &mut Vec<Span>, bounds: &mut Vec<Bounds>, span: Span)
    requires bounded { AreBounded spans.old.items bounds.old.items }
    requires room { vec_len spans.old < vec_capacity spans.old }
    requires bounds_room { vec_len bounds.old < vec_capacity bounds.old }
    ensures bounded { AreBounded spans.new.items bounds.new.items }
    ensures members { (q : TheSpan) → Contains spans.new.items q ↔ (Contains spans.old.items q ⊎ (q ≡ span)) }
    ensures longer { IsLonger spans.old spans.new }
    ensures bounds_longer { IsLonger bounds.old bounds.new }
{
    let place = spans.len();
    spans.push_reserved(span);
    let run = joined(spans, bounds, place);
    bounds.push_reserved(run);
    let start = place + 1 - run.count;
    sort_from(spans, start);
    bound_from(bounds, spans, start);
}
