//! What is told of challenges that are open, and of trust.

use crate::told::told::explanation_of_items;
use evidence_item::Item;
use evidence_samples::{Nodes, make_nodes};
use std::alloc::Global;
use std::test::Fail;

/// Challenges to node 2: to show its log from the beginning on and from entry 3 on, and to acknowledge a message.
fn demands(alloc: Global, nodes: &mut Nodes) -> Result<Vec<Item>, Fail> {
    let mut items = Vec::new(alloc);
    items.push(Box::into_inner(nodes.two.audit(alloc, None)?))?;
    items.push(Box::into_inner(nodes.two.audit(alloc, Some(3))?))?;
    let message = nodes.one.message(alloc, 7, b"hello", 9)?;
    items.push(Item::send(Box::into_inner(message))?)?;
    Ok(items)
}

/// What is told of them.
fn explanation_of_demands(alloc: Global) -> Result<Vec<u8>, Fail> {
    let mut nodes = make_nodes(alloc)?;
    let items = demands(alloc, &mut nodes)?;
    explanation_of_items(alloc, &nodes.directory, items)
}

/// What is told where the log is shown from entry 3 on too.
fn explanation_of_answer(alloc: Global) -> Result<Vec<u8>, Fail> {
    let mut nodes = make_nodes(alloc)?;
    let mut items = demands(alloc, &mut nodes)?;
    items.push(Box::into_inner(nodes.two.log_from(alloc, 3)?))?;
    explanation_of_items(alloc, &nodes.directory, items)
}

/// What is told where there is no item.
fn explanation_of_nothing(alloc: Global) -> Result<Vec<u8>, Fail> {
    let nodes = make_nodes(alloc)?;
    explanation_of_items(alloc, &nodes.directory, Vec::new(alloc))
}

fn demands_text() -> &'static str {
    "2 nodes: 1 trusted, 1 suspected, 0 exposed; 3 items: 2 audit challenges, 1 send challenge
1 trusted
  Statements of it stand at 1 place in the items.
2 suspected
  Item 1, an audit challenge, asks node 2 for its log from the beginning to entry 6.
  A segment of node 2 from the beginning that has entry 6 with the hash 8efdb92f95adedfc3b0901b6cd71095fbf3ba9e41ea7217e94b2d844596172f7 would answer it.
  Item 2, an audit challenge, asks node 2 for its log from entry 3 to entry 6.
  A segment of node 2 that has entry 3 with the hash 0bee76b99802d47101db002c12e34a0d1a06de5e939794c91dbb4101c4376d20 and entry 6 with the hash 8efdb92f95adedfc3b0901b6cd71095fbf3ba9e41ea7217e94b2d844596172f7 would answer it.
  Item 3, a send challenge of node 1, asks node 2 to acknowledge entry 7 of node 1: \"hello\".
  An acknowledgement by node 2 of a message from node 1 with this number would answer it, or a segment of node 2 with a RECV of one that node 1 signed.
"
}

fn answer_text() -> &'static str {
    "2 nodes: 1 trusted, 1 suspected, 0 exposed; 4 items: 1 segment, 2 audit challenges, 1 send challenge
1 trusted
  Statements of it stand at 1 place in the items.
2 suspected
  Item 2, an audit challenge, asks node 2 for its log from the beginning to entry 6.
  A segment of node 2 from the beginning that has entry 6 with the hash 8efdb92f95adedfc3b0901b6cd71095fbf3ba9e41ea7217e94b2d844596172f7 would answer it.
  Item 4, a send challenge of node 1, asks node 2 to acknowledge entry 7 of node 1: \"hello\".
  An acknowledgement by node 2 of a message from node 1 with this number would answer it, or a segment of node 2 with a RECV of one that node 1 signed.
"
}

fn nothing_text() -> &'static str {
    "2 nodes: 2 trusted, 0 suspected, 0 exposed; 0 items
1 trusted (no item)
  No item is of node 1.
2 trusted (no item)
  No item is of node 2.
"
}

#[test]
fn open_challenges(rt: HostRuntime) -> Result<(), Fail> {
    let told = explanation_of_demands(rt.alloc())?;
    assert!(rt; told.as_slice() == demands_text().as_bytes());
    Ok(())
}

#[test]
fn an_answered_challenge(rt: HostRuntime) -> Result<(), Fail> {
    let told = explanation_of_answer(rt.alloc())?;
    assert!(rt; told.as_slice() == answer_text().as_bytes());
    Ok(())
}

#[test]
fn no_item(rt: HostRuntime) -> Result<(), Fail> {
    let told = explanation_of_nothing(rt.alloc())?;
    assert!(rt; told.as_slice() == nothing_text().as_bytes());
    Ok(())
}
