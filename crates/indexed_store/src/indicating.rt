//! What the items say of a node.

ghost use Rattle.std.specs.Prelude.{◌≡◌, true};
ghost use Rattle.authenticators.specs.Directory.{is_listed};
ghost use Rattle.evidence_set.specs.Indications.{IsIndication};
ghost use Rattle.evidence_set.specs.ItemSets.{set_of};
ghost use Rattle.node_tables.specs.Indexed.{Tells};
ghost use Rattle.indexed_store.specs.within.Resting.{IsIndex};

use crate::index::{Index, table_of};
use authenticators::{Directory, NodeId};
use evidence_set::Indication;
use node_tables::Table;
use replay_verifier::Program;
use replay_verifier::laws::deviating_lists_do_not_conform;

/// Returns the indication that the table of a node gives.
fn indication_of(table: &Table) -> Indication
    ensures { Tells table.now result }
{
    if table.exposure.is_some() {
        return Indication::Exposed;
    }
    if table.unanswered.len() == 0 {
        return Indication::Trusted;
    }
    Indication::Suspected
}

/// Returns what the items say of a listed node. It is a look-up, and takes no memory.
pub(crate) fn indication<P: Program>(
    directory: &Directory,
    index: &Index<P>,
    node: NodeId,
) -> Indication
    requires store { IsIndex directory.now P.means index.now }
    requires listed { is_listed directory.now node ≡ true }
    ensures { IsIndication directory.now P.means (set_of index.now.items.items) node result }
{
    deviating_lists_do_not_conform::<P::State>();
    match table_of(index, node) {
        None => Indication::Trusted,
        Some(table) => indication_of(table),
    }
}
