//! Room that is made before anything changes.

ghost use Rattle.std.specs.Prelude.{OnErr, OnOk};
ghost use Rattle.kept_items.specs.Positions.{stated};
ghost use Rattle.node_tables.specs.Rooms.{AreMany, IsReady, IsRoomier, KeepsPromises, Promises, TakesBack, bodies_of, rows_of};
ghost use Rattle.node_tables.specs.Steps.{AscendByNode, EachBecomes, wanted};
ghost use Rattle.node_tables.specs.within.Promising.{nothing, one_at, one_for};

use crate::quoting::receipts_of;
use crate::releasing::{entries_of, release_first};
use crate::table::Table;
use crate::tables::place_of;
use authenticators::NodeId;
use kept_items::KeptItem;
use outcome::Memory;

/// Promises the table one statement more, which is so many receipts, and makes room for all that were promised.
fn promise_here(table: &mut Table, receipts: usize) -> Result<(), Memory>
    ensures same { IsRoomier table.old table.new }
    ensures ok { OnOk result (AreMany 1 0 table.old table.new) }
    ensures refused { OnErr result (KeepsPromises table.old table.new) }
{
    let Some(count) = table.promised.checked_add(1) else {
        return Err(Memory);
    };
    table.rows.reserve(count)?;
    table.receipts.promise(receipts)?;
    table.promised = count;
    Ok(())
}

/// Promises the node's table one statement more, which is so many receipts.
fn promise(tables: &mut [Table], node: NodeId, receipts: usize) -> Result<(), Memory>
    requires { AscendByNode tables.old }
    ensures same { EachBecomes IsRoomier tables.old tables.new }
    ensures ok { OnOk result (EachBecomes (Promises (one_for node) nothing) tables.old tables.new) }
    ensures refused { OnErr result (EachBecomes KeepsPromises tables.old tables.new) }
{
    let Some(i) = place_of(tables, node) else {
        return Ok(());
    };
    promise_here(&mut tables[i], receipts)
}

/// Promises the table of its node the statement at a position of the item, if one stands there.
fn promise_at<P>(tables: &mut [Table], kept: &KeptItem<P>, position: u32) -> Result<(), Memory>
    requires { AscendByNode tables.old }
    ensures same { EachBecomes IsRoomier tables.old tables.new }
    ensures ok { OnOk result (EachBecomes (Promises (one_at kept.now position) nothing) tables.old tables.new) }
    ensures refused { OnErr result (EachBecomes KeepsPromises tables.old tables.new) }
{
    match kept.statement(position) {
        None => Ok(()),
        Some(said) => promise(tables, said.node, receipts_of(kept, position)),
    }
}

/// Promises the same. If that fails, it takes back what was promised of the statements before it.
fn promise_or_release<P>(
    tables: &mut [Table],
    kept: &KeptItem<P>,
    position: u32,
) -> Result<(), Memory>
    requires { AscendByNode tables.old }
    ensures same { EachBecomes IsRoomier tables.old tables.new }
    ensures ok { OnOk result (EachBecomes (Promises (one_at kept.now position) nothing) tables.old tables.new) }
    ensures refused { OnErr result (EachBecomes (TakesBack (wanted (stated kept.now) position) nothing) tables.old tables.new) }
{
    let Err(memory) = promise_at(tables, kept, position) else {
        return Ok(());
    };
    release_first(tables, kept, position);
    Err(memory)
}

/// Promises the tables the statements of the item.
fn promise_statements<P>(tables: &mut [Table], kept: &KeptItem<P>) -> Result<(), Memory>
    requires { AscendByNode tables.old }
    ensures same { EachBecomes IsRoomier tables.old tables.new }
    ensures ok { OnOk result (EachBecomes (Promises (rows_of kept.now) nothing) tables.old tables.new) }
    ensures refused { OnErr result (EachBecomes KeepsPromises tables.old tables.new) }
{
    for position in 0..kept.positions() {
        promise_or_release(tables, kept, position)?;
    }
    Ok(())
}

/// Promises the table one segment with so many entries and one challenge more, and makes room for all that were promised.
fn promise_body_here(table: &mut Table, entries: usize) -> Result<(), Memory>
    ensures same { IsRoomier table.old table.new }
    ensures ok { OnOk result (AreMany 0 1 table.old table.new) }
    ensures refused { OnErr result (KeepsPromises table.old table.new) }
{
    let Some(count) = table.bodies.checked_add(1) else {
        return Err(Memory);
    };
    table.spans.reserve(count)?;
    table.unanswered.reserve(count)?;
    table.hashes.promise(entries, count)?;
    table.bodies = count;
    Ok(())
}

/// Promises the table of its node what the item is beside its statements.
fn promise_body<P>(tables: &mut [Table], kept: &KeptItem<P>) -> Result<(), Memory>
    requires { AscendByNode tables.old }
    ensures same { EachBecomes IsRoomier tables.old tables.new }
    ensures ok { OnOk result (EachBecomes (Promises nothing (bodies_of kept.now)) tables.old tables.new) }
    ensures refused { OnErr result (EachBecomes KeepsPromises tables.old tables.new) }
{
    let Some(node) = kept.subject() else {
        return Ok(());
    };
    let Some(i) = place_of(tables, node) else {
        return Ok(());
    };
    promise_body_here(&mut tables[i], entries_of(kept))
}

/// Promises the same. If that fails, it takes back what was promised of the item's statements.
fn promise_body_or_release<P>(tables: &mut [Table], kept: &KeptItem<P>) -> Result<(), Memory>
    requires { AscendByNode tables.old }
    ensures same { EachBecomes IsRoomier tables.old tables.new }
    ensures ok { OnOk result (EachBecomes (Promises nothing (bodies_of kept.now)) tables.old tables.new) }
    ensures refused { OnErr result (EachBecomes (TakesBack (rows_of kept.now) nothing) tables.old tables.new) }
{
    let Err(memory) = promise_body(tables, kept) else {
        return Ok(());
    };
    release_first(tables, kept, kept.positions());
    Err(memory)
}

/// Promises the whole item to the tables of its nodes, and makes room for it there, beside all that was promised before. If it returns
/// `Memory`, as much is promised as before.
pub fn promise_item<P>(tables: &mut [Table], kept: &KeptItem<P>) -> Result<(), Memory>
    requires { AscendByNode tables.old }
    ensures same { EachBecomes IsRoomier tables.old tables.new }
    ensures ok { OnOk result (EachBecomes (IsReady kept.now) tables.old tables.new) }
    ensures refused { OnErr result (EachBecomes KeepsPromises tables.old tables.new) }
{
    promise_statements(tables, kept)?;
    promise_body_or_release(tables, kept)?;
    Ok(())
}
