//! Tables with nothing in them.

ghost use Rattle.std.specs.Prelude.{◌≡◌, [], ℕ, IfOk, OnOk, length, true};
ghost use Rattle.std.specs.List.Sorted.{IsBinarySearchResult, IsSearchInRange};
ghost use Rattle.std.specs.Ordering.{nat_cmp};
ghost use Rattle.authenticators.specs.Directory.{is_listed};
ghost use Rattle.node_tables.specs.declared.table.Table.{Table as TheTable};
ghost use Rattle.node_tables.specs.Indexed.{HasNode, IsTable};
ghost use Rattle.node_tables.specs.Rooms.{Owes};
ghost use Rattle.node_tables.specs.Steps.{AllTables, AscendByNode};

use crate::hashes::Hashes;
use crate::receipt_list::ReceiptList;
use crate::span_list::SpanList;
use crate::table::Table;
use authenticators::{Directory, NodeId};
use outcome::Memory;
use std::alloc::Global;
use tiered_vec::TieredVec;

/// Returns a table with nothing in it.
fn empty(alloc: Global, node: NodeId) -> Table
    ensures node { result.node ≡ node }
    ensures table { IsTable [] result }
    ensures owes { Owes [] result }
{
    Table {
        node,
        rows: TieredVec::new(alloc),
        receipts: ReceiptList::new(alloc),
        spans: SpanList::new(alloc),
        unanswered: TieredVec::new(alloc),
        hashes: Hashes::new(alloc),
        exposure: None,
        promised: 0,
        bodies: 0,
    }
}

fn search(tables: &[Table], node: NodeId) -> Result<usize, usize>
    ensures bound { IsSearchInRange result (length tables.now) }
    ensures position { IsBinarySearchResult (λ (t : TheTable). nat_cmp t.node node) tables.now result }
{
    tables.binary_search_by_key(&node, |table| table.node)
}

/// Puts an empty table for the node among the others, if it has none.
fn open(alloc: Global, tables: &mut Vec<Table>, node: NodeId) -> Result<(), Memory>
    requires ascending { AscendByNode tables.old.items }
    requires each { AllTables (IsTable []) tables.old.items }
    requires owes { AllTables (Owes []) tables.old.items }
    ensures ascending { OnOk result (AscendByNode tables.new.items) }
    ensures each { OnOk result (AllTables (IsTable []) tables.new.items) }
    ensures owes { OnOk result (AllTables (Owes []) tables.new.items) }
    ensures has { OnOk result (HasNode tables.new.items node) }
    ensures still { OnOk result ((j : ℕ) → HasNode tables.old.items j → HasNode tables.new.items j) }
{
    match search(tables, node) {
        Ok(_) => Ok(()),
        Err(place) => {
            let table = empty(alloc, node);
            tables.insert(place, table)?;
            Ok(())
        }
    }
}

/// Returns an empty table for each node that the directory lists, ascending by node.
pub fn empty_tables(alloc: Global, directory: &Directory) -> Result<Vec<Table>, Memory>
    ensures ascending { IfOk result (λ tables. AscendByNode tables.items) }
    ensures listed { IfOk result (λ tables. (j : ℕ) → is_listed directory.now j ≡ true → HasNode tables.items j) }
    ensures each { IfOk result (λ tables. AllTables (IsTable []) tables.items) }
    ensures owes { IfOk result (λ tables. AllTables (Owes []) tables.items) }
{
    let mut tables: Vec<Table> = Vec::new(alloc);
    for node in directory.nodes() {
        open(alloc, &mut tables, *node)?;
    }
    Ok(tables)
}
