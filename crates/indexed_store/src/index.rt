//! The items of a store, with what they are looked up by.

ghost use Rattle.std.specs.Prelude.{◌≡◌, ◌≢◌, ℕ, IfNone, IfSome, Some, slice_get};
ghost use Rattle.std.specs.List.{Contains};
ghost use Rattle.node_tables.specs.declared.table.Table.{Table as TheTable};
ghost use Rattle.node_tables.specs.Steps.{AscendByNode};

use authenticators::NodeId;
use kept_items::KeptItem;
use node_tables::{Table, place_of};
use tiered_vec::TieredVec;

/// Items as they came, the places of all of them in the order of their encodings, and what they say of each listed node.
#[derive(Drop)]
pub(crate) struct Index<P> {
    /// The items as they came.
    pub items: Vec<KeptItem<P>>,
    /// Their places, in the order of their encodings.
    pub order: TieredVec<u32>,
    /// What they say of each node that is listed.
    pub tables: Vec<Table>,
}

/// Returns the table of the node, if it has one. It takes a binary search.
pub(crate) fn table_of<P>(index: &Index<P>, node: NodeId) -> Option<&Table>
    requires { AscendByNode index.now.tables.items }
    ensures none { IfNone result ((t : TheTable) → Contains index.now.tables.items t → t.node ≢ node) }
    ensures some { IfSome result (λ t. (i : ℕ) × (slice_get index.now.tables.items i ≡ Some t.now) × (t.now.node ≡ node)) }
{
    match place_of(&index.tables, node) {
        None => None,
        Some(i) => Some(&index.tables[i]),
    }
}
