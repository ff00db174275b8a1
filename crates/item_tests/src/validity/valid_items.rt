//! Valid items: one of each form that is not a segment, and a segment that deviates.

use evidence_item::Item;
use evidence_samples::{Nodes, Start, ZEROS, receipt, turned};
use log_chain::Entry;
use std::alloc::Global;
use std::test::Fail;

/// A statement of node 1.
pub(crate) fn valid_auth(alloc: Global, nodes: &mut Nodes) -> Result<Box<Item>, Fail> {
    nodes.one.statement(alloc, 5, ZEROS, 9)
}

/// A message of `hello` to node 2.
pub(crate) fn valid_send(alloc: Global, nodes: &mut Nodes) -> Result<Box<Item>, Fail> {
    let message = nodes.one.message(alloc, 7, b"hello", 9)?;
    let item = Item::send(Box::into_inner(message))?;
    Ok(Box::new(alloc, item)?)
}

/// The same with node 2's acknowledgement.
pub(crate) fn valid_ack(alloc: Global, nodes: &mut Nodes) -> Result<Box<Item>, Fail> {
    let message = nodes.one.message(alloc, 7, b"hello", 9)?;
    nodes.two.acknowledged(alloc, message)
}

/// Two receipts: of that message with its last byte changed, and as it was sent.
fn receipts(alloc: Global, nodes: &mut Nodes) -> Result<Vec<Entry>, Fail> {
    let message = nodes.one.message(alloc, 7, b"hello", 9)?;
    let mut changed = receipt(alloc, 2, &message)?;
    changed.content = turned(changed.content);
    let mut entries = Vec::new(alloc);
    entries.push(changed)?;
    entries.push(receipt(alloc, 4, &message)?)?;
    Ok(entries)
}

/// Node 2's log: INIT and these receipts.
pub(crate) fn valid_segment(alloc: Global, nodes: &mut Nodes) -> Result<Box<Item>, Fail> {
    let entries = receipts(alloc, nodes)?;
    nodes.two.segment(alloc, Start::Init, entries)
}
