//! What is known of each node's log.

use crate::detail::Detail;
use authenticators::NodeId;
use log_chain::Hash;
use outcome::Memory;
use std::alloc::Global;
use std::collections::{BTreeMap, BTreeSet};

/// An entry of a node's log, by its number and its hash.
#[derive(Clone, Copy, Debug, PartialEq, Eq, PartialOrd, Ord)]
pub struct Place {
    /// The node.
    pub node: NodeId,
    /// The number of the entry.
    pub seq: u64,
    /// The hash of the entry.
    pub hash: Hash,
}

/// An entry of a node's log.
#[derive(Clone, Copy, Debug)]
pub struct Cell {
    /// Its number and hash.
    pub place: Place,
    /// Whether it stands in a segment.
    pub is_logged: bool,
    pub(crate) detail: Option<usize>,
}

/// What is known of the wanted logs: their entries by number, each once. Entries that were only signed, and stand in no segment, are among
/// them.
#[derive(Debug, Drop)]
pub struct Rows {
    pub(crate) by_node: BTreeMap<u32, Vec<Cell>>,
    pub(crate) details: Vec<Detail>,
    pub(crate) quoted_places: BTreeMap<Place, Place>,
    pub(crate) quoting: BTreeSet<u32>,
}

impl Cell {
    /// Returns how little is known: 0 for an entry of a segment, 1 if it is known what the entry says, and 2 for a statement alone.
    pub(crate) fn rank(&self) -> u8 {
        if self.is_logged {
            0
        } else if self.detail.is_some() {
            1
        } else {
            2
        }
    }
}

impl Rows {
    /// Returns the entries of a node's log, by number. Under one number, the entries of segments come first, and statements alone come
    /// last.
    pub fn of(&self, node: NodeId) -> &[Cell] {
        match self.by_node.get(&node.0) {
            Some(cells) => cells.as_slice(),
            None => &[],
        }
    }

    /// Returns the entry at place `at` of a node's log, from 0. Returns `None` if there is no such entry.
    pub fn cell(&self, node: NodeId, at: usize) -> Option<Cell> {
        self.of(node).get(at).copied()
    }

    /// Returns the SEND entry that an entry quotes genuinely, which is with a valid signature. Returns `None` if it quotes none so.
    pub fn quoted_place(&self, cell: &Cell) -> Option<Place> {
        self.quoted_places.get(&cell.place).copied()
    }

    /// Returns what an entry says, if it is known.
    pub fn detail(&self, cell: &Cell) -> Option<Detail> {
        self.details.get(cell.detail?).copied()
    }

    /// Returns whether an entry of the node quotes one that [`Wanted::quoted`](crate::Wanted) names. It says so even if the node's own log
    /// is not wanted.
    pub fn quotes_named(&self, node: NodeId) -> bool {
        self.quoting.contains(&node.0)
    }

    /// Returns the nodes of whose logs something is known, in ascending order.
    pub fn nodes(&self, alloc: Global) -> Result<Vec<NodeId>, Memory> {
        self.by_node.keys().map(|node| NodeId(*node)).collect(alloc)
    }
}
