//! What a store says of both nodes.

use authenticators::NodeId;
use evidence::Evidence;
use evidence_set::Indication;
use ref_programs::Tally;
use std::test::Fail;

/// What a store says of the nodes 1 and 2.
#[derive(Clone, Copy, Debug, PartialEq, Eq)]
pub struct Said {
    /// The indication of node 1.
    pub one: Indication,
    /// The indication of node 2.
    pub two: Indication,
    /// How many challenges against node 2 have no answer among the items.
    pub open: usize,
}

/// Returns what the store says of both nodes. Its directory must list both.
pub fn said_by<S: Evidence<Tally>>(store: &S) -> Result<Said, Fail> {
    Ok(Said {
        one: store.indication(NodeId(1))?,
        two: store.indication(NodeId(2))?,
        open: store.open_challenges(NodeId(2))?.len(),
    })
}
