//! Rows: where a statement stands.

ghost use Rattle.std.specs.Prelude.{◌≡◌, Some};
ghost use Rattle.std.specs.Option.{option_map};
ghost use Rattle.kept_items.specs.Positions.{shown};
ghost use Rattle.node_tables.specs.Rows.{stated_at};
ghost use Rattle.node_tables.specs.within.Bringing.{order_at};

use kept_items::{KeptItem, Said, compare_said};
use std::cmp::Ordering;

/// Where a statement stands: the place of an item, and the position of the statement in it.
#[derive(Clone, Copy, Debug, Drop)]
pub struct Row {
    /// The place of the item.
    pub item: u32,
    /// The position in the item.
    pub position: u32,
}

/// Returns the statement that a row names. Returns `None` if no item stands at the row's place, or no statement at its position.
pub fn said_at<P>(items: &[KeptItem<P>], row: Row) -> Option<Said<'_>>
    ensures { option_map shown result ≡ stated_at items.now row }
{
    match items.get(row.item as usize) {
        None => None,
        Some(kept) => kept.statement(row.position),
    }
}

/// Returns how the statement that a row names compares with another.
pub(crate) fn compare_row<P>(items: &[KeptItem<P>], row: Row, said: &Said<'_>) -> Ordering
    ensures { result ≡ order_at items.now row (shown said.now) }
{
    match said_at(items, row) {
        None => Ordering::Greater,
        Some(at) => compare_said(&at, said),
    }
}
