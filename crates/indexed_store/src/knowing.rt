//! Whether the items say anything of a node.

ghost use Rattle.std.specs.Prelude.{◌↔◌, ◌≢◌, ◌⊎◌, IsTrue, []};
ghost use Rattle.evidence_set.specs.ItemSets.{set_of};
ghost use Rattle.localities.specs.Known.{IsKnown};
ghost use Rattle.indexed_store.specs.within.Resting.{IsIndex};

use crate::index::{Index, table_of};
use authenticators::{Directory, NodeId};
use localities::laws::known_as_expected;
use node_tables::Table;
use replay_verifier::Program;
use replay_verifier::laws::deviating_lists_do_not_conform;

/// Returns whether the table has a statement of its node, or an open challenge against it.
fn has_any(table: &Table) -> bool
    ensures { IsTrue result ↔ ((table.now.rows.items ≢ []) ⊎ (table.now.unanswered.items ≢ [])) }
{
    if table.rows.len() > 0 {
        return true;
    }
    table.unanswered.len() > 0
}

/// Returns whether anything is known of a node. It is a look-up, and takes no memory. A challenge that is answered need not be looked for,
/// since what answers it holds a statement of the node. Nothing is known of a node that is not listed.
pub(crate) fn knows<P: Program>(directory: &Directory, index: &Index<P>, node: NodeId) -> bool
    requires { IsIndex directory.now P.means index.now }
    ensures { IsTrue result ↔ IsKnown directory.now (set_of index.now.items.items) node }
{
    known_as_expected();
    deviating_lists_do_not_conform::<P::State>();
    match table_of(index, node) {
        None => false,
        Some(table) => has_any(table),
    }
}
