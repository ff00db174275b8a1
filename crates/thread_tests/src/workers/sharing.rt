//! Stores that are shared under the directory of the nodes 1 and 2, and calls at them.

ghost use Rattle.std.specs.Prelude.{◌<◌, length};

use evidence_item::{Item, check_item};
use evidence_samples::{Nodes, Signer, make_nodes};
use evidence_store::Evidence;
use log_chain::Hash;
use ref_programs::Tally;
use std::alloc::Global;
use std::sync::Wait;
use std::test::Fail;
use store_samples::new_store;
use witness_workers::{Closed, MOST_WORKERS, Pass, SharedStore};

/// The node's statement on entry 5 and a hash of one byte 32 times over. Its signature has a C of one byte 32 times over.
pub(crate) fn statement(
    alloc: Global,
    node: &mut Signer,
    hash: u8,
    c: u8,
) -> Result<Box<Item>, Fail> {
    node.statement(alloc, 5, Hash([hash; 32]), c)
}

/// A store that is shared, with the passes of the first two callers and those of all others, and the nodes.
#[derive(Drop)]
pub(crate) struct Sharing<S: Evidence<Tally>> {
    pub(crate) nodes: Nodes,
    pub(crate) shared: Box<SharedStore<Tally, S>>,
    pub(crate) first: Pass,
    pub(crate) second: Pass,
    pub(crate) others: Vec<Pass>,
}

/// The same of a store with its passes.
fn sharing_of<S: Evidence<Tally>>(
    alloc: Global,
    nodes: Nodes,
    shared: SharedStore<Tally, S>,
    mut passes: Vec<Pass>,
) -> Result<Sharing<S>, Fail>
    requires { 1 < length passes.items }
{
    let shared = Box::new(alloc, shared)?;
    passes.reverse();
    let (Some(first), Some(second)) = (passes.pop(), passes.pop()) else {
        unreachable!();
    };
    Ok(Sharing {
        nodes,
        shared,
        first,
        second,
        others: passes,
    })
}

/// A store that two callers share.
pub(crate) fn share<S: Evidence<Tally>>(alloc: Global) -> Result<Sharing<S>, Fail> {
    let nodes = make_nodes(alloc)?;
    let store: Box<S> = new_store(alloc, &nodes.directory)?;
    let (shared, passes) = SharedStore::open(alloc, Box::into_inner(store), 2)?;
    sharing_of(alloc, nodes, shared, passes)
}

/// A store that as many callers share as may share one.
pub(crate) fn share_among_most<S: Evidence<Tally>>(alloc: Global) -> Result<Sharing<S>, Fail> {
    let nodes = make_nodes(alloc)?;
    let store: Box<S> = new_store(alloc, &nodes.directory)?;
    let (shared, passes) = SharedStore::open(alloc, Box::into_inner(store), MOST_WORKERS)?;
    sharing_of(alloc, nodes, shared, passes)
}

/// Checks the item under the store's directory, and takes it: whether it was new, where nothing is refused.
pub(crate) fn take_item<S: Evidence<Tally>, R: Wait>(
    rt: &R,
    alloc: Global,
    shared: &SharedStore<Tally, S>,
    pass: &mut Pass,
    item: Box<Item>,
) -> Option<bool> {
    let item = Box::into_inner(item);
    let checked = check_item(alloc, &Tally, shared.directory(), item).ok()?;
    shared.take(rt, pass, checked).ok()
}

/// Merges a store without items: how many items were new, where nothing is refused.
pub(crate) fn merge_nothing<S: Evidence<Tally>, R: Wait>(
    rt: &R,
    alloc: Global,
    shared: &SharedStore<Tally, S>,
    pass: &mut Pass,
) -> Option<u64> {
    let directory = shared.directory().try_clone().ok()?;
    let other: S = S::new(alloc, directory).ok()?;
    shared.merge(rt, pass, &other).ok()
}

/// Closes the store with these passes.
pub(crate) fn close_both<S: Evidence<Tally>>(
    alloc: Global,
    shared: Box<SharedStore<Tally, S>>,
    passes: (Pass, Pass),
) -> Result<Box<Closed<S>>, Fail> {
    let mut all = Vec::new(alloc);
    all.push(passes.0)?;
    all.push(passes.1)?;
    let closed = Box::into_inner(shared).close(all)?;
    Ok(Box::new(alloc, closed)?)
}
