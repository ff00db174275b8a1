//! The bounds of segments that stand side by side.

ghost use Rattle.std.specs.Prelude.{◌≡◌, ◌+◌, ◌-◌, ◌<◌, ◌≤◌, ◌^◌, IfSome, length, max, min, slice_index_or};
ghost use Rattle.node_tables.specs.declared.bounds.Bounds.{Bounds as TheBounds};
ghost use Rattle.node_tables.specs.within.Spanning.{AreBoundedUpTo, IsBound};

use crate::span::Span;

/// Bounds of so many segments that stand side by side.
#[derive(Clone, Copy, Debug, Drop)]
pub struct Bounds {
    /// How many segments they are.
    pub count: usize,
    /// The least `low` of the segments.
    pub low: u64,
    /// The greatest `last` of the segments.
    pub last: u64,
}

impl Bounds {
    /// Returns the bounds of one segment.
    fn of(span: &Span) -> Bounds
        ensures { result ≡ record { count = 1; low = span.now.low; last = span.now.last } }
    {
        Bounds {
            count: 1,
            low: span.low,
            last: span.last,
        }
    }

    /// Returns the bounds of these segments and of others.
    fn with(&self, other: &Bounds) -> Bounds
        requires { self.now.count + other.now.count < 2 ^ 64 }
        ensures { result ≡ record { count = self.now.count + other.now.count; low = min self.now.low other.now.low; last = max self.now.last other.now.last } }
    {
        Bounds {
            count: self.count + other.count,
            low: self.low.min(other.low),
            last: self.last.max(other.last),
        }
    }
}

/// Returns the bounds of the run that ends where the last `count` segments up to a place begin, if the run has `count` segments too.
fn run_before(bounds: &[Bounds], place: usize, count: usize) -> Option<Bounds>
    requires { place ≤ length bounds.now }
    ensures { IfSome result (λ b. (b.count ≡ count) × (count ≤ place) × ((d : TheBounds) → 1 ≤ count → b ≡ slice_index_or bounds.now (place - count) d)) }
{
    if count == 0 || count > place {
        return None;
    }
    let before = bounds[place - count];
    if before.count != count {
        return None;
    }
    Some(before)
}

/// Returns the bounds of the segment at a place and of the runs before it. A run joins as long as it has as many segments as stand behind
/// it.
pub(crate) fn joined(spans: &[Span], bounds: &[Bounds], place: usize) -> Bounds
    requires inside { place < length spans.now }
    requires long { place ≤ length bounds.now }
    requires bounded { AreBoundedUpTo spans.now bounds.now place }
    ensures { IsBound spans.now place result }
{
    let mut all = Bounds::of(&spans[place]);
    while let Some(before) = run_before(bounds, place, all.count) {
        all = all.with(&before);
    }
    all
}

/// Writes the bounds from a place on.
pub(crate) fn bound_from(bounds: &mut [Bounds], spans: &[Span], start: usize)
    requires long { length bounds.old ≡ length spans.now }
    requires inside { start ≤ length spans.now }
    requires before { AreBoundedUpTo spans.now bounds.old start }
    ensures { AreBoundedUpTo spans.now bounds.new (length bounds.new) }
{
    for place in start..bounds.len() {
        let all = joined(spans, bounds, place);
        bounds[place] = all;
    }
}
