//! The choice of the nodes whose logs are wanted.

use authenticators::NodeId;
use std::alloc::Global;
use std::collections::BTreeSet;

/// The number of an entry in a node's log.
#[derive(Clone, Copy, Debug, PartialEq, Eq, PartialOrd, Ord)]
pub struct Numbered {
    /// The node.
    pub node: NodeId,
    /// The number of the entry.
    pub seq: u64,
}

/// The nodes whose logs are wanted.
#[derive(Debug, Drop)]
pub struct Wanted {
    /// The nodes, by their numbers; `None` if all are wanted.
    pub nodes: Option<BTreeSet<u32>>,
    /// Entries, by their numbers. A node is wanted too if an entry of it quotes one of these.
    pub quoted: BTreeSet<Numbered>,
    /// How many such nodes are wanted at most. Those with the lowest numbers are taken.
    pub further: usize,
}

impl Wanted {
    /// Returns the choice of all logs.
    pub fn all(alloc: Global) -> Wanted {
        Wanted {
            nodes: None,
            quoted: BTreeSet::new(alloc),
            further: 0,
        }
    }

    /// Returns whether the log of this node is wanted, whatever it quotes.
    pub(crate) fn has(&self, node: NodeId) -> bool {
        match &self.nodes {
            Some(nodes) => nodes.contains(&node.0),
            None => true,
        }
    }
}
