//! Promises that are taken back.

ghost use Rattle.kept_items.specs.Positions.{stated};
ghost use Rattle.node_tables.specs.Rooms.{AreBack, IsReleased, TakesBack, bodies_of};
ghost use Rattle.node_tables.specs.Steps.{AscendByNode, EachBecomes, wanted};
ghost use Rattle.node_tables.specs.within.Promising.{nothing, one_at, one_for};

use crate::quoting::receipts_of;
use crate::table::Table;
use crate::tables::place_of;
use authenticators::NodeId;
use kept_items::KeptItem;

/// Takes back what was promised of one statement, which is so many receipts.
fn release_here(table: &mut Table, receipts: usize)
    ensures { AreBack 1 0 table.old table.new }
{
    table.promised = table.promised.saturating_sub(1);
    table.receipts.release(receipts);
}

/// Takes back what was promised of one statement of the node, which is so many receipts.
fn release(tables: &mut [Table], node: NodeId, receipts: usize)
    requires { AscendByNode tables.old }
    ensures { EachBecomes (TakesBack (one_for node) nothing) tables.old tables.new }
{
    if let Some(i) = place_of(tables, node) {
        release_here(&mut tables[i], receipts);
    }
}

/// Takes back what was promised of the statement at a position of the item, if one stands there.
fn release_at<P>(tables: &mut [Table], kept: &KeptItem<P>, position: u32)
    requires { AscendByNode tables.old }
    ensures { EachBecomes (TakesBack (one_at kept.now position) nothing) tables.old tables.new }
{
    if let Some(said) = kept.statement(position) {
        release(tables, said.node, receipts_of(kept, position));
    }
}

/// Takes back what was promised of the statements at the first positions of the item.
pub(crate) fn release_first<P>(tables: &mut [Table], kept: &KeptItem<P>, count: u32)
    requires { AscendByNode tables.old }
    ensures { EachBecomes (TakesBack (wanted (stated kept.now) count) nothing) tables.old tables.new }
{
    for position in 0..count {
        release_at(tables, kept, position);
    }
}

/// Returns how many entries the item has if it is a segment, and else 0.
pub(crate) fn entries_of<P>(kept: &KeptItem<P>) -> usize {
    if kept.form().is_some() {
        return 0;
    }
    kept.positions().saturating_sub(1) as usize
}

/// Takes back what was promised of one segment or challenge.
fn release_body_here(table: &mut Table, entries: usize)
    ensures { AreBack 0 1 table.old table.new }
{
    table.bodies = table.bodies.saturating_sub(1);
    table.hashes.release(entries);
}

/// Takes back what was promised of the item beside its statements.
fn release_body<P>(tables: &mut [Table], kept: &KeptItem<P>)
    requires { AscendByNode tables.old }
    ensures { EachBecomes (TakesBack nothing (bodies_of kept.now)) tables.old tables.new }
{
    let Some(node) = kept.subject() else {
        return;
    };
    if let Some(i) = place_of(tables, node) {
        release_body_here(&mut tables[i], entries_of(kept));
    }
}

/// Takes back what was promised of the whole item. A caller calls it if the item will not come.
pub fn release_item<P>(tables: &mut [Table], kept: &KeptItem<P>)
    requires { AscendByNode tables.old }
    ensures { EachBecomes (IsReleased kept.now) tables.old tables.new }
{
    release_first(tables, kept, kept.positions());
    release_body(tables, kept);
}
