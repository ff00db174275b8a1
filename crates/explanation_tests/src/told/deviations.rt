//! What is told of a segment that deviates.

use crate::told::told::{explanation_of_items, explanation_of_proof};
use authenticators::NodeId;
use evidence_item::Item;
use evidence_samples::{Nodes, entry, make_nodes};
use log_chain::base_hash;
use log_chain::kind::{CHECKPOINT, INIT, SEND, TIMER};
use std::alloc::Global;
use std::test::Fail;

/// The log of node 1, whose timer ticks at 5. Tally then sends node 2 an A and the 5; what stands there instead is given.
fn deviating(
    alloc: Global,
    nodes: &mut Nodes,
    kind: u8,
    content: &[u8],
) -> Result<Vec<Item>, Fail> {
    let mut entries = Vec::new(alloc);
    entries.push(entry(alloc, 1, INIT, &[0, 0, 0, 1])?)?;
    entries.push(entry(alloc, 2, TIMER, &[0, 0, 0, 0, 0, 0, 0, 5])?)?;
    entries.push(entry(alloc, 3, kind, content)?)?;
    let segment = nodes.one.part(alloc, base_hash(), entries)?;
    let mut items = Vec::new(alloc);
    items.push(Box::into_inner(segment))?;
    Ok(items)
}

/// The log of node 1, which began: Tally is at 0 and sends nothing. What stands there instead is given.
fn begun(alloc: Global, nodes: &mut Nodes, kind: u8, content: &[u8]) -> Result<Vec<Item>, Fail> {
    let mut entries = Vec::new(alloc);
    entries.push(entry(alloc, 1, INIT, &[0, 0, 0, 1])?)?;
    entries.push(entry(alloc, 2, kind, content)?)?;
    let segment = nodes.one.part(alloc, base_hash(), entries)?;
    let mut items = Vec::new(alloc);
    items.push(Box::into_inner(segment))?;
    Ok(items)
}

/// What is told where the message is missing.
fn explanation_of_missing(alloc: Global) -> Result<Vec<u8>, Fail> {
    let mut nodes = make_nodes(alloc)?;
    let items = deviating(alloc, &mut nodes, TIMER, &[0, 0, 0, 0, 0, 0, 0, 6])?;
    explanation_of_items(alloc, &nodes.directory, items)
}

/// What is told of the proof where another message is sent.
fn explanation_of_other(alloc: Global) -> Result<Vec<u8>, Fail> {
    let mut nodes = make_nodes(alloc)?;
    let items = deviating(alloc, &mut nodes, SEND, b"\0\0\0\x02say \"no\"")?;
    explanation_of_proof(alloc, &nodes.directory, items, NodeId(1))
}

/// What is told where a message is too many.
fn explanation_of_extra(alloc: Global) -> Result<Vec<u8>, Fail> {
    let mut nodes = make_nodes(alloc)?;
    let items = begun(alloc, &mut nodes, SEND, b"\0\0\0\x02hello")?;
    explanation_of_items(alloc, &nodes.directory, items)
}

/// What is told of the proof where a CHECKPOINT has another state.
fn explanation_of_state(alloc: Global) -> Result<Vec<u8>, Fail> {
    let mut nodes = make_nodes(alloc)?;
    let items = begun(alloc, &mut nodes, CHECKPOINT, &[0, 0, 0, 0, 0, 0, 0, 5])?;
    explanation_of_proof(alloc, &nodes.directory, items, NodeId(1))
}

fn missing_text() -> &'static str {
    "2 nodes: 1 trusted, 0 suspected, 1 exposed; 1 item: 1 segment
1 exposed
  Node 1 deviates from its program at entry 3 of its log, a TIMER: a message that the program sends is missing (MissingOutput).
  Its log from entry 1 to entry 3: item 1, a segment.
  The program awaited a SEND to node 2 of the bytes 410000000000000005.
  Logged is a TIMER of the moment 6.
2 trusted (no item)
  No item is of node 2.
"
}

fn other_text() -> &'static str {
    "The proof exposes node 1 by one segment.
1 exposed
  Node 1 deviates from its program at entry 3 of its log, a SEND: the program sends another message there (WrongOutput).
  Its log from entry 1 to entry 3: part 1, a segment.
  The program awaited a SEND to node 2 of the bytes 410000000000000005.
  Logged is a SEND to node 2 of the bytes 73617920226e6f22.
"
}

fn extra_text() -> &'static str {
    "2 nodes: 1 trusted, 0 suspected, 1 exposed; 1 item: 1 segment
1 exposed
  Node 1 deviates from its program at entry 2 of its log, a SEND: the program sends no message there (ExtraOutput).
  Its log from entry 1 to entry 2: item 1, a segment.
  The program awaited no SEND.
  Logged is a SEND to node 2 of \"hello\".
2 trusted (no item)
  No item is of node 2.
"
}

fn state_text() -> &'static str {
    "The proof exposes node 1 by one segment.
1 exposed
  Node 1 deviates from its program at entry 2 of its log, a CHECKPOINT: the program is in another state there (WrongCheckpoint).
  Its log from entry 1 to entry 2: part 1, a segment.
  The program's state was the bytes 0000000000000000.
  Logged is a CHECKPOINT with the bytes 0000000000000005.
"
}

#[test]
fn a_message_that_is_missing(rt: HostRuntime) -> Result<(), Fail> {
    let told = explanation_of_missing(rt.alloc())?;
    assert!(rt; told.as_slice() == missing_text().as_bytes());
    Ok(())
}

#[test]
fn a_proof_of_another_message(rt: HostRuntime) -> Result<(), Fail> {
    let told = explanation_of_other(rt.alloc())?;
    assert!(rt; told.as_slice() == other_text().as_bytes());
    Ok(())
}

#[test]
fn a_message_too_many(rt: HostRuntime) -> Result<(), Fail> {
    let told = explanation_of_extra(rt.alloc())?;
    assert!(rt; told.as_slice() == extra_text().as_bytes());
    Ok(())
}

#[test]
fn a_proof_of_another_state(rt: HostRuntime) -> Result<(), Fail> {
    let told = explanation_of_state(rt.alloc())?;
    assert!(rt; told.as_slice() == state_text().as_bytes());
    Ok(())
}
