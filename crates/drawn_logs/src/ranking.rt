//! The choice of the nodes that have a row, and of those whose logs are needed for that.

use crate::choosing::is_spoken_of;
use crate::marks::Marks;
use authenticators::NodeId;
use evidence_set::Indication;
use known_logs::{Rows, Wanted};
use sentences::Explanation;
use std::alloc::{AllocError, Global};
use std::collections::BTreeSet;

/// The greatest number of rows of a picture. If there are more nodes, a node has no row if nothing stands against it and it neither has nor
/// quotes a marked entry.
const MOST_ROWS: usize = 12;

/// The rank of nodes against which nothing stands, and which have or quote a marked entry.
const INVOLVED: u8 = 2;

/// Returns the nodes that are explained, or of whose logs something is known, in ascending order.
fn nodes_of(
    alloc: Global,
    explanation: &Explanation,
    rows: &Rows,
) -> Result<BTreeSet<u32>, AllocError> {
    let mut nodes = BTreeSet::new(alloc);
    for told in &explanation.nodes {
        nodes.insert(told.node.0)?;
    }
    for node in rows.nodes(alloc)? {
        nodes.insert(node.0)?;
    }
    Ok(nodes)
}

/// Returns what is said of the node, if it is explained.
fn indication_of(explanation: &Explanation, node: NodeId) -> Option<Indication> {
    let nodes = explanation.nodes.as_slice();
    let at = nodes.binary_search_by_key(&node, |told| told.node).ok()?;
    Some(nodes.get(at)?.indication)
}

/// Returns whether an entry of the node is marked, or quotes a marked one.
fn is_involved(rows: &Rows, node: NodeId, marks: &Marks) -> bool {
    if marks.of(node).is_some() || rows.quotes_named(node) {
        return true;
    }
    let cells = rows.of(node);
    cells.iter().any(|cell| is_spoken_of(rows, cell, marks))
}

/// Returns how soon a node has a row, by what is said of it and by whether it has or quotes a marked entry. Exposed nodes come first, then
/// suspected ones, then those that have or quote a marked entry. Others have no rank.
fn rank(indication: Option<Indication>, is_involved: bool) -> Option<u8> {
    match indication {
        Some(Indication::Exposed) => Some(0),
        Some(Indication::Suspected) => Some(1),
        _ if is_involved => Some(INVOLVED),
        _ => None,
    }
}

/// Returns the rank of a node.
fn rank_of(explanation: &Explanation, rows: &Rows, node: NodeId, marks: &Marks) -> Option<u8> {
    let is_involved = is_involved(rows, node, marks);
    rank(indication_of(explanation, node), is_involved)
}

/// Returns the nodes that have a rank before any log is known, with it.
fn ranked_of(
    alloc: Global,
    explanation: &Explanation,
    marks: &Marks,
) -> Result<Vec<(u8, u32)>, AllocError> {
    let mut ranked = Vec::new(alloc);
    for told in &explanation.nodes {
        let is_marked = marks.of(told.node).is_some();
        if let Some(rank) = rank(Some(told.indication), is_marked) {
            ranked.push((rank, told.node.0))?;
        }
    }
    Ok(ranked)
}

/// Returns whose logs a picture of the explanation needs. Of up to 12 nodes it needs all.
///
/// Of more nodes, it needs the logs of at most 12 nodes against which something stands, or that have a marked entry. It also needs the logs
/// of nodes that quote a marked entry, as many as can have a row beside the nodes against which something stands.
pub fn wanted_of(alloc: Global, explanation: &Explanation) -> Result<Wanted, AllocError> {
    if explanation.nodes.len() <= MOST_ROWS {
        return Ok(Wanted::all(alloc));
    }
    let marks = Marks::of_explanation(alloc, explanation)?;
    let ranked = ranked_of(alloc, explanation, &marks)?;
    let at_fault = ranked.iter().filter(|(rank, _)| *rank < INVOLVED).count();
    Ok(Wanted {
        nodes: Some(first_of(alloc, ranked)?),
        quoted: marks.numbers(alloc)?,
        further: MOST_ROWS.saturating_sub(at_fault),
    })
}

/// The nodes that have a row, and how many have none.
#[derive(Drop)]
pub(crate) struct Chosen {
    pub(crate) nodes: BTreeSet<u32>,
    pub(crate) quiet: u64,
    pub(crate) further: u64,
}

/// Returns the nodes that have a row. Of a few nodes, all have one.
pub(crate) fn chosen_of(
    alloc: Global,
    explanation: &Explanation,
    rows: &Rows,
    marks: &Marks,
) -> Result<Chosen, AllocError> {
    let nodes = nodes_of(alloc, explanation, rows)?;
    if nodes.len() <= MOST_ROWS {
        return Ok(Chosen {
            nodes,
            quiet: 0,
            further: 0,
        });
    }
    let mut ranked = Vec::new(alloc);
    for node in nodes.iter() {
        if let Some(rank) = rank_of(explanation, rows, NodeId(*node), marks) {
            ranked.push((rank, *node))?;
        }
    }
    let quiet = nodes.len().saturating_sub(ranked.len()) as u64;
    let further = ranked.len().saturating_sub(MOST_ROWS) as u64;
    Ok(Chosen {
        nodes: first_of(alloc, ranked)?,
        quiet,
        further,
    })
}

/// Returns the nodes that come first.
fn first_of(alloc: Global, mut ranked: Vec<(u8, u32)>) -> Result<BTreeSet<u32>, AllocError> {
    ranked.sort()?;
    let mut chosen = BTreeSet::new(alloc);
    for (_, node) in ranked.iter().take(MOST_ROWS) {
        chosen.insert(*node)?;
    }
    Ok(chosen)
}
