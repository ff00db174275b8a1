//! The tables of all nodes.

ghost use Rattle.std.specs.Prelude.{◌≡◌, ◌≢◌, ◌<◌, ◌≤◌, IfNone, IfSome, Some, length, slice_get};
ghost use Rattle.std.specs.List.{Contains};
ghost use Rattle.authenticators.specs.declared.authenticator.Authenticator.{Authenticator as Statement};
ghost use Rattle.node_tables.specs.declared.table.Table.{Table as TheTable};
ghost use Rattle.node_tables.specs.Rows.{stated_at};
ghost use Rattle.node_tables.specs.Steps.{AllTables, AscendByNode, EachBecomes, position_of, room, wanted};
ghost use Rattle.node_tables.specs.Tables.{IsTold};
ghost use Rattle.node_tables.specs.within.Coming.{StatementCame, StatementsCame};

use crate::row::{Row, said_at};
use crate::table::Table;
use crate::telling::put_statement;
use authenticators::NodeId;
use kept_items::KeptItem;

/// Returns the place of the node's table, or `None` if the node has none. It takes a binary search.
pub fn place_of(tables: &[Table], node: NodeId) -> Option<usize>
    requires { AscendByNode tables.now }
    ensures none { IfNone result ((t : TheTable) → Contains tables.now t → t.node ≢ node) }
    ensures within { IfSome result (λ i. i < length tables.now) }
    ensures some { IfSome result (λ i. (t : TheTable) × (slice_get tables.now i ≡ Some t) × (t.node ≡ node)) }
{
    tables.binary_search_by_key(&node, |table| table.node).ok()
}

/// Puts the statement that a row names into the table of its node, and takes back what was promised of it. There is room for it.
fn put<P>(items: &[KeptItem<P>], tables: &mut [Table], row: Row)
    requires ascending { AscendByNode tables.old }
    requires told { AllTables (IsTold items.now) tables.old }
    requires room { (a : Statement) → stated_at items.now row ≡ Some a → AllTables (λ t. t.node ≡ a.node → 1 ≤ room t) tables.old }
    ensures { EachBecomes (StatementCame items.now row) tables.old tables.new }
{
    let Some(said) = said_at(items, row) else {
        return;
    };
    let node = said.node;
    if let Some(i) = place_of(tables, node) {
        put_statement(items, &mut tables[i], row);
    }
}

/// Puts the statements of the item at a place into the tables of their nodes, and takes back what was promised of them. They are at most
/// `count`, and there is room for them.
pub(crate) fn put_statements<P>(items: &[KeptItem<P>], tables: &mut [Table], item: u32, count: u32)
    requires ascending { AscendByNode tables.old }
    requires told { AllTables (IsTold items.now) tables.old }
    requires room { AllTables (λ t. wanted (position_of items.now item) count t.node ≤ room t) tables.old }
    ensures { EachBecomes (StatementsCame items.now item count) tables.old tables.new }
{
    for position in 0..count {
        put(items, tables, Row { item, position });
    }
}
