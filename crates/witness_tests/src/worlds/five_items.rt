//! Items of two nodes on which three witnesses come to agree.

use authenticators::Directory;
use evidence_item::Item;
use evidence_samples::{Nodes, ZEROS, make_nodes};
use log_chain::Hash;
use std::alloc::Global;
use std::test::Fail;

/// The directory of the nodes 1 and 2, and five items: two statements of node 1 on entry 5 that differ in their signatures alone, and
/// one that has another hash; node 2's log from its third entry on, and its statement that the fourth has another hash.
#[derive(Drop)]
pub(crate) struct FiveItems {
    pub(crate) directory: Box<Directory>,
    pub(crate) items: Vec<Item>,
}

/// The items, which are signed in their order.
fn sign_items(alloc: Global, nodes: &mut Nodes) -> Result<Vec<Item>, Fail> {
    let mut items = Vec::new(alloc);
    for (byte, c) in [(7, 0), (7, 1), (8, 9)] {
        let hash = Hash([byte; 32]);
        items.push(Box::into_inner(nodes.one.statement(alloc, 5, hash, c)?))?;
    }
    items.push(Box::into_inner(nodes.two.log_from(alloc, 3)?))?;
    items.push(Box::into_inner(nodes.two.statement(alloc, 4, ZEROS, 9)?))?;
    Ok(items)
}

pub(crate) fn make_items(alloc: Global) -> Result<FiveItems, Fail> {
    let mut nodes = make_nodes(alloc)?;
    let items = sign_items(alloc, &mut nodes)?;
    Ok(FiveItems {
        directory: nodes.directory,
        items,
    })
}
