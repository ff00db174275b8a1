//! Putting a statement into the table of its node.

ghost use Rattle.std.specs.Prelude.{◌≡◌, ◌≤◌, IsSome, None, Some, length};
ghost use Rattle.std.specs.List.Sorted.{IsBinarySearchResult, IsSearchInRange};
ghost use Rattle.authenticators.specs.declared.authenticator.Authenticator.{Authenticator as Statement};
ghost use Rattle.kept_items.specs.Positions.{shown};
ghost use Rattle.node_tables.specs.Rooms.{KeepsPromises};
ghost use Rattle.node_tables.specs.Rows.{stated_at};
ghost use Rattle.node_tables.specs.Steps.{room};
ghost use Rattle.node_tables.specs.Tables.{AreSpans, IsTold};
ghost use Rattle.node_tables.specs.within.Bringing.{AreUndenied, IsNext, RowStep, order_at};
ghost use Rattle.node_tables.specs.within.Coming.{StatementCame};

use crate::exposure::ExposingPlaces;
use crate::finding::brought_by;
use crate::quoting::put_receipt;
use crate::row::{Row, compare_row, said_at};
use crate::table::Table;
use kept_items::{KeptItem, Said};
use std::cmp::Ordering;
use tiered_vec::{Probe, TieredVec};

/// A statement that is looked for among rows.
#[derive_where(Clone, Copy)]
struct Sought<'a, P> {
    items: &'a [KeptItem<P>],
    said: &'a Said<'a>,
}

impl<'a, P> Probe<Row> for Sought<'a, P> {
    ghost order = { λ s r. order_at s.items.now r (shown s.said.now) };

    fn compare(&self, row: &Row) -> Ordering {
        compare_row(self.items, *row, self.said)
    }
}

/// Returns where the statement stands among the rows, or would stand.
fn place_of<P>(
    items: &[KeptItem<P>],
    rows: &TieredVec<Row>,
    said: &Said<'_>,
) -> Result<usize, usize>
    ensures bound { IsSearchInRange result (length rows.now.items) }
    ensures position { IsBinarySearchResult (λ r. order_at items.now r (shown said.now)) rows.now.items result }
{
    rows.search(&Sought { items, said })
}

/// Returns what exposes the node once a statement comes. The statement's place among the rows is given.
fn exposure_with<P>(
    items: &[KeptItem<P>],
    table: &Table,
    place: usize,
    row: Row,
    said: &Said<'_>,
) -> Option<ExposingPlaces>
    requires spans { AreSpans items.now said.now.node table.now.spans.items }
    requires place { place ≤ length table.now.rows.items }
    requires quiet { table.now.exposure ≡ None → AreUndenied items.now table.now.rows.items table.now.spans.items }
    ensures { IsNext items.now table.now.rows.items table.now.spans.items place row (shown said.now) table.now.exposure result }
{
    match table.exposure {
        Some(exposure) => Some(exposure),
        None => brought_by(items, &table.rows, &table.spans, place, row, said),
    }
}

/// Puts the statement that a row names into the table of its node, if it is not there yet, and keeps what it brings. There is room for it.
fn put_row<P>(items: &[KeptItem<P>], table: &mut Table, row: Row)
    requires told { IsTold items.now table.old }
    requires own { (a : Statement) → stated_at items.now row ≡ Some a → a.node ≡ table.old.node }
    requires room { 1 ≤ table.old.rows.room }
    ensures told { IsTold items.now table.new }
    ensures step { RowStep items.now row table.old table.new }
    ensures counts { KeepsPromises table.old table.new }
{
    let Some(said) = said_at(items, row) else {
        return;
    };
    let Err(place) = place_of(items, &table.rows, &said) else {
        return;
    };
    let exposure = exposure_with(items, table, place, row, &said);
    table.exposure = exposure;
    table.rows.insert(place, row);
}

/// Puts the statement that a row names into the table of its node, if it is not there yet. It keeps what the statement brings, and of what
/// message it is a receipt. It takes back what was promised of it. There is room for it.
pub(crate) fn put_statement<P>(items: &[KeptItem<P>], table: &mut Table, row: Row)
    requires told { IsTold items.now table.old }
    requires own { (a : Statement) → stated_at items.now row ≡ Some a → a.node ≡ table.old.node }
    requires there { IsSome (stated_at items.now row) }
    requires room { 1 ≤ room table.old }
    ensures { StatementCame items.now row table.old table.new }
{
    put_row(items, table, row);
    put_receipt(items, table, row);
    table.promised = table.promised.saturating_sub(1);
}
