//! Putting a segment into the table of its node.

ghost use Rattle.std.specs.Prelude.{◌≡◌, ◌<◌, ◌≤◌, ◌+◌, IfNone, IfSome, None, Some, false, length, option_copied, slice_get, slice_index_or, true};
ghost use Rattle.std.specs.List.{AllWithin, Contains};
ghost use Rattle.std.specs.List.Sorted.{IsPartitionPoint, IsPartitionedBy};
ghost use Rattle.authenticators.specs.declared.authenticator.Authenticator.{Authenticator as Statement};
ghost use Rattle.kept_evidence.specs.Telling.{IsSegmentOf, deviates};
ghost use Rattle.kept_items.specs.Keeping.{reach as reach_of};
ghost use Rattle.node_tables.specs.declared.row.Row.{Row as TheRow};
ghost use Rattle.node_tables.specs.Rows.{stated_at};
ghost use Rattle.node_tables.specs.Tables.{IsSegmentAt, IsTold, denies_at};
ghost use Rattle.node_tables.specs.within.Bringing.{AreAlike, AreBetween, IsBroughtBySegment, IsNextBySegment, SegmentBringsNothing, below_by, denied_by_row, number_by, side, up_to_by};
ghost use Rattle.node_tables.specs.within.Coming.{SegmentCame};

use crate::edge::{edge_at, side};
use crate::exposure::ExposingPlaces;
use crate::row::{Row, said_at};
use crate::span::Span;
use crate::table::Table;
use kept_items::laws::denials_are_within_reach;
use kept_items::{KeptItem, Reach};
use replay_verifier::Verdict;
use std::cmp::Ordering;
use std::ops::Range;
use tiered_vec::{Probe, TieredVec};

/// Whether the verdict is that the entries deviate.
fn deviates(verdict: Option<&Verdict>) -> bool
    ensures { result ≡ deviates (option_copied verdict.entry) }
{
    match verdict {
        Some(Verdict::Deviates { .. }) => true,
        Some(Verdict::Conforms) => false,
        None => false,
    }
}

fn is_below<P>(items: &[KeptItem<P>], row: Row, number: u64) -> bool
    ensures { result ≡ below_by (stated_at items.now row) number }
{
    match said_at(items, row) {
        None => false,
        Some(said) => said.seq < number,
    }
}

fn is_up_to<P>(items: &[KeptItem<P>], row: Row, number: u64) -> bool
    ensures { result ≡ up_to_by (stated_at items.now row) number }
{
    match said_at(items, row) {
        None => false,
        Some(said) => said.seq <= number,
    }
}

/// The edge of those whose numbers are below this one.
#[derive_where(Clone, Copy)]
struct Below<'a, P> {
    items: &'a [KeptItem<P>],
    number: u64,
}

impl<'a, P> Probe<Row> for Below<'a, P> {
    ghost order = { λ s r. side (below_by (stated_at s.items.now r) s.number) };

    fn compare(&self, row: &Row) -> Ordering {
        side(is_below(self.items, *row, self.number))
    }
}

/// The edge of those whose numbers are at most this one.
#[derive_where(Clone, Copy)]
struct UpTo<'a, P> {
    items: &'a [KeptItem<P>],
    number: u64,
}

impl<'a, P> Probe<Row> for UpTo<'a, P> {
    ghost order = { λ s r. side (up_to_by (stated_at s.items.now r) s.number) };

    fn compare(&self, row: &Row) -> Ordering {
        side(is_up_to(self.items, *row, self.number))
    }
}

/// The place up to which the numbers are below this one.
fn edge_below<P>(items: &[KeptItem<P>], rows: &TieredVec<Row>, number: u64) -> usize
    requires { IsPartitionedBy (λ r. below_by (stated_at items.now r) number) rows.now.items }
    ensures inside { result ≤ length rows.now.items }
    ensures edge { IsPartitionPoint (λ r. below_by (stated_at items.now r) number ≡ true) (λ r. below_by (stated_at items.now r) number ≡ false) rows.now.items result }
{
    edge_at(rows.search(&Below { items, number }))
}

/// The place up to which the numbers are at most this one.
fn edge_up_to<P>(items: &[KeptItem<P>], rows: &TieredVec<Row>, number: u64) -> usize
    requires { IsPartitionedBy (λ r. up_to_by (stated_at items.now r) number) rows.now.items }
    ensures inside { result ≤ length rows.now.items }
    ensures edge { IsPartitionPoint (λ r. up_to_by (stated_at items.now r) number ≡ true) (λ r. up_to_by (stated_at items.now r) number ≡ false) rows.now.items result }
{
    edge_at(rows.search(&UpTo { items, number }))
}

/// Returns where among the rows of a table those stand whose statements have the numbers from `low` up to `last`.
fn rows_between<P>(items: &[KeptItem<P>], table: &Table, low: u64, last: u64) -> Range<usize>
    requires { IsTold items.now table.now }
    ensures { AreBetween items.now table.now.rows.items low last result.start result.end }
{
    let start = edge_below(items, &table.rows, low);
    let end = edge_up_to(items, &table.rows, last);
    start..end
}

/// Whether the statement of the row contradicts the item.
fn denies_row<P>(items: &[KeptItem<P>], row: Row, kept: &KeptItem<P>) -> bool
    ensures { result ≡ denied_by_row (stated_at items.now row) kept.now.item.fields }
{
    match said_at(items, row) {
        None => false,
        Some(said) => kept.is_denied(&said),
    }
}

/// Returns the row at the place, if its statement contradicts the item.
fn denier_at<P>(
    items: &[KeptItem<P>],
    rows: &TieredVec<Row>,
    place: usize,
    kept: &KeptItem<P>,
) -> Option<Row>
    ensures none { IfNone result ((d : TheRow) → place < length rows.now.items → denied_by_row (stated_at items.now (slice_index_or rows.now.items place d)) kept.now.item.fields ≡ false) }
    ensures some { IfSome result (λ r. Contains rows.now.items r × (denied_by_row (stated_at items.now r) kept.now.item.fields ≡ true)) }
{
    match rows.get(place) {
        None => None,
        Some(row) => {
            if denies_row(items, *row, kept) {
                return Some(*row);
            }
            None
        }
    }
}

/// The number of the statement of the row at the place.
fn number_at<P>(items: &[KeptItem<P>], rows: &TieredVec<Row>, place: usize) -> Option<u64>
    ensures { (d : TheRow) → place < length rows.now.items → result ≡ number_by (stated_at items.now (slice_index_or rows.now.items place d)) }
{
    match rows.get(place) {
        None => None,
        Some(row) => match said_at(items, *row) {
            None => None,
            Some(said) => Some(said.seq),
        },
    }
}

/// Returns the place behind the rows that have the number of the one at the place. If none stands there, it returns the end.
fn behind_number<P>(items: &[KeptItem<P>], table: &Table, place: usize, end: usize) -> usize
    requires told { IsTold items.now table.now }
    requires inside { place < end }
    requires most { end ≤ length table.now.rows.items }
    ensures more { place < result }
    ensures within { result ≤ length table.now.rows.items }
    ensures alike { AreAlike items.now table.now.rows.items place result }
{
    match number_at(items, &table.rows, place) {
        None => end,
        Some(number) => edge_up_to(items, &table.rows, number),
    }
}

/// Returns the first of the rows from one place to another whose statement contradicts the item. Rows with one number have one hash, so it
/// looks only at the first of them.
fn denier<P>(
    items: &[KeptItem<P>],
    table: &Table,
    near: &Range<usize>,
    kept: &KeptItem<P>,
) -> Option<Row>
    requires told { IsTold items.now table.now }
    requires quiet { table.now.exposure ≡ None }
    requires inside { near.now.end ≤ length table.now.rows.items }
    ensures none { IfNone result (AllWithin (λ (r : TheRow). denied_by_row (stated_at items.now r) kept.now.item.fields ≡ false) table.now.rows.items near.now.start near.now.end) }
    ensures some { IfSome result (λ r. Contains table.now.rows.items r × (denied_by_row (stated_at items.now r) kept.now.item.fields ≡ true)) }
{
    let mut place = near.start;
    while place < near.end {
        if let Some(row) = denier_at(items, &table.rows, place, kept) {
            return Some(row);
        }
        place = behind_number(items, table, place, near.end);
    }
    None
}

/// Returns what exposes the node once the segment comes, if nothing did before. It looks at the statements that can contradict it.
fn brought_by_segment<P>(
    items: &[KeptItem<P>],
    table: &Table,
    span: &Span,
    kept: &KeptItem<P>,
) -> Option<ExposingPlaces>
    requires told { IsTold items.now table.now }
    requires quiet { table.now.exposure ≡ None }
    requires here { slice_get items.now span.now.item ≡ Some kept.now }
    requires reach { (a : Statement) → denies_at items.now a span.now.item ≡ true → (span.now.low ≤ a.seq + 2) × (a.seq ≤ span.now.last) }
    ensures none { IfNone result (SegmentBringsNothing items.now table.now.rows.items span.now.item) }
    ensures some { IfSome result (IsBroughtBySegment items.now table.now.rows.items span.now.item) }
{
    if deviates(kept.verdict()) {
        return Some(ExposingPlaces::Deviates(span.item));
    }
    let near = rows_between(items, table, span.low.saturating_sub(2), span.last);
    match denier(items, table, &near, kept) {
        None => None,
        Some(row) => Some(ExposingPlaces::Denied(row, span.item)),
    }
}

/// Returns what exposes the node once the segment comes.
fn exposure_with<P>(
    items: &[KeptItem<P>],
    table: &Table,
    span: &Span,
    kept: &KeptItem<P>,
) -> Option<ExposingPlaces>
    requires told { IsTold items.now table.now }
    requires here { slice_get items.now span.now.item ≡ Some kept.now }
    requires reach { (a : Statement) → denies_at items.now a span.now.item ≡ true → (span.now.low ≤ a.seq + 2) × (a.seq ≤ span.now.last) }
    ensures { IsNextBySegment items.now table.now.rows.items span.now.item table.now.exposure result }
{
    match table.exposure {
        Some(exposure) => Some(exposure),
        None => brought_by_segment(items, table, span, kept),
    }
}

/// Puts the segment into the table of its node, for which there is room.
fn put<P>(items: &[KeptItem<P>], table: &mut Table, place: u32, kept: &KeptItem<P>, reach: Reach)
    requires told { IsTold items.now table.old }
    requires here { slice_get items.now place ≡ Some kept.now }
    requires reach { reach_of kept.now.item.fields ≡ Some reach }
    requires own { IsSegmentOf table.old.node kept.now.item.fields }
    requires room { 1 ≤ table.old.spans.room }
    ensures { SegmentCame items.now place table.old table.new }
{
    denials_are_within_reach();
    let span = Span {
        item: place,
        low: reach.low,
        last: reach.last,
    };
    let exposure = exposure_with(items, table, &span, kept);
    table.exposure = exposure;
    table.spans.put(span);
}

/// Puts the segment at a place into the table of its node, for which there is room.
pub(crate) fn put_segment<P>(items: &[KeptItem<P>], table: &mut Table, place: u32)
    requires told { IsTold items.now table.old }
    requires segment { IsSegmentAt items.now table.old.node place }
    requires room { 1 ≤ table.old.spans.room }
    ensures { SegmentCame items.now place table.old table.new }
{
    let Some(kept) = items.get(place as usize) else {
        return;
    };
    let Some(reach) = kept.reach() else {
        return;
    };
    put(items, table, place, kept, reach);
}
