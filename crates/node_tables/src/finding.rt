//! What a new statement brings against its node.

ghost use Rattle.std.specs.Prelude.{◌≡◌, ◌<◌, ◌≤◌, ◌-◌, IfNone, IfSome, false, length, slice_index_or, true};
ghost use Rattle.std.specs.List.{Contains};
ghost use Rattle.kept_items.specs.Positions.{shown};
ghost use Rattle.node_tables.specs.declared.row.Row.{Row as TheRow};
ghost use Rattle.node_tables.specs.declared.span.Span.{Span as TheSpan};
ghost use Rattle.node_tables.specs.Tables.{AreSpans, denies_at};
ghost use Rattle.node_tables.specs.within.Bringing.{AreUndenied, BringsNothing, IsBrought, NoneBeside, again_at, two_at};

use crate::exposure::ExposingPlaces;
use crate::row::{Row, said_at};
use crate::span_list::SpanList;
use authenticators::NodeId;
use kept_items::{KeptItem, Said};
use tiered_vec::TieredVec;

/// Whether the row's statement has the number and another hash.
fn is_other<P>(items: &[KeptItem<P>], row: Row, said: &Said<'_>) -> bool
    ensures { result ≡ two_at items.now row (shown said.now) }
{
    match said_at(items, row) {
        None => false,
        Some(at) => at.seq == said.seq && at.hash != said.hash,
    }
}

/// Returns the row at the place, if its statement has the number and another hash.
fn other_at<P>(
    items: &[KeptItem<P>],
    rows: &TieredVec<Row>,
    place: usize,
    said: &Said<'_>,
) -> Option<Row>
    ensures none { IfNone result ((d : TheRow) → place < length rows.now.items → two_at items.now (slice_index_or rows.now.items place d) (shown said.now) ≡ false) }
    ensures some { IfSome result (λ r. Contains rows.now.items r × (two_at items.now r (shown said.now) ≡ true)) }
{
    match rows.get(place) {
        None => None,
        Some(row) => {
            if is_other(items, *row, said) {
                return Some(*row);
            }
            None
        }
    }
}

/// Returns the row before the place, if its statement has the number and another hash.
fn other_before<P>(
    items: &[KeptItem<P>],
    rows: &TieredVec<Row>,
    place: usize,
    said: &Said<'_>,
) -> Option<Row>
    requires { place ≤ length rows.now.items }
    ensures none { IfNone result ((d : TheRow) → 1 ≤ place → two_at items.now (slice_index_or rows.now.items (place - 1) d) (shown said.now) ≡ false) }
    ensures some { IfSome result (λ r. Contains rows.now.items r × (two_at items.now r (shown said.now) ≡ true)) }
{
    if place == 0 {
        return None;
    }
    other_at(items, rows, place - 1, said)
}

/// The row beside the place whose statement has the number and another hash.
fn other_beside<P>(
    items: &[KeptItem<P>],
    rows: &TieredVec<Row>,
    place: usize,
    said: &Said<'_>,
) -> Option<Row>
    requires { place ≤ length rows.now.items }
    ensures none { IfNone result (NoneBeside items.now rows.now.items place (shown said.now)) }
    ensures some { IfSome result (λ r. Contains rows.now.items r × (two_at items.now r (shown said.now) ≡ true)) }
{
    match other_before(items, rows, place, said) {
        Some(row) => Some(row),
        None => other_at(items, rows, place, said),
    }
}

/// Whether the row's statement has the number and the same hash.
fn is_again<P>(items: &[KeptItem<P>], row: Row, said: &Said<'_>) -> bool
    ensures { result ≡ again_at items.now row (shown said.now) }
{
    match said_at(items, row) {
        None => false,
        Some(at) => at.seq == said.seq && at.hash == said.hash,
    }
}

/// Whether the statement of the row at the place has the number and the same hash.
fn is_again_at<P>(
    items: &[KeptItem<P>],
    rows: &TieredVec<Row>,
    place: usize,
    said: &Said<'_>,
) -> bool
    ensures { result ≡ true → (r : TheRow) × Contains rows.now.items r × (again_at items.now r (shown said.now) ≡ true) }
{
    match rows.get(place) {
        None => false,
        Some(row) => is_again(items, *row, said),
    }
}

/// Whether the statement of a row beside the place has the number and the same hash. Those of one number and hash stand together.
fn is_again_beside<P>(
    items: &[KeptItem<P>],
    rows: &TieredVec<Row>,
    place: usize,
    said: &Said<'_>,
) -> bool
    ensures { result ≡ true → (r : TheRow) × Contains rows.now.items r × (again_at items.now r (shown said.now) ≡ true) }
{
    if is_again_at(items, rows, place, said) {
        return true;
    }
    place > 0 && is_again_at(items, rows, place - 1, said)
}

/// Whether the statement contradicts the item at the place, which is a segment.
fn is_denied_at<P>(items: &[KeptItem<P>], place: u32, said: &Said<'_>) -> bool
    ensures { result ≡ denies_at items.now (shown said.now) place }
{
    match items.get(place as usize) {
        None => false,
        Some(kept) => kept.is_denied(said),
    }
}

/// The place of a segment that the statement contradicts. It looks at those that a statement of its number can contradict.
fn denied_by<P>(
    items: &[KeptItem<P>],
    spans: &SpanList,
    node: NodeId,
    said: &Said<'_>,
) -> Option<u32>
    requires { AreSpans items.now node spans.now.items }
    ensures none { IfNone result ((p : TheSpan) → Contains spans.now.items p → denies_at items.now (shown said.now) p.item ≡ false) }
    ensures some { IfSome result (λ i. (p : TheSpan) × Contains spans.now.items p × (p.item ≡ i) × (denies_at items.now (shown said.now) i ≡ true)) }
{
    let all = spans.as_slice();
    let from = said.seq.saturating_add(2);
    let mut before = all.len();
    while let Some(place) = spans.around(from, said.seq, before) {
        if is_denied_at(items, all[place].item, said) {
            return Some(all[place].item);
        }
        before = place;
    }
    None
}

/// Returns what exposes the node once a statement comes, if nothing did before. The statement's place among the rows is given. If it was
/// said already, with another signature, no segment is looked at: it contradicted none before.
pub(crate) fn brought_by<P>(
    items: &[KeptItem<P>],
    rows: &TieredVec<Row>,
    spans: &SpanList,
    place: usize,
    row: Row,
    said: &Said<'_>,
) -> Option<ExposingPlaces>
    requires spans { AreSpans items.now said.now.node spans.now.items }
    requires place { place ≤ length rows.now.items }
    requires quiet { AreUndenied items.now rows.now.items spans.now.items }
    ensures none { IfNone result (BringsNothing items.now rows.now.items spans.now.items place (shown said.now)) }
    ensures some { IfSome result (IsBrought items.now rows.now.items spans.now.items row (shown said.now)) }
{
    if let Some(other) = other_beside(items, rows, place, said) {
        return Some(ExposingPlaces::TwoHashes(row, other));
    }
    if is_again_beside(items, rows, place, said) {
        return None;
    }
    match denied_by(items, spans, said.node, said) {
        None => None,
        Some(segment) => Some(ExposingPlaces::Denied(row, segment)),
    }
}
