//! What is told of statements that contradict each other, or a segment.

use crate::told::told::{explanation_of_items, explanation_of_proof};
use authenticators::NodeId;
use evidence_item::Item;
use evidence_samples::{Nodes, Start, entry, make_nodes};
use log_chain::Hash;
use log_chain::kind::{CHECKPOINT, TIMER};
use std::alloc::Global;
use std::test::Fail;

const ONES: Hash = Hash([1; 32]);

const TWOS: Hash = Hash([2; 32]);

/// A statement of node 1, and a segment of node 2 that quotes another one under the same number.
fn quoted_items(alloc: Global, nodes: &mut Nodes) -> Result<Vec<Item>, Fail> {
    let message = nodes.one.message(alloc, 7, b"hello", 9)?;
    let mut items = Vec::new(alloc);
    items.push(Box::into_inner(nodes.one.statement(alloc, 7, ONES, 9)?))?;
    let segment = nodes.two.receiving(alloc, Start::Init, &message)?;
    items.push(Box::into_inner(segment))?;
    Ok(items)
}

/// A statement of node 2 with this number, and its log of six entries from one of them on.
fn denied_items(alloc: Global, nodes: &mut Nodes, seq: u64, from: u64) -> Result<Vec<Item>, Fail> {
    let mut items = Vec::new(alloc);
    items.push(Box::into_inner(nodes.two.statement(alloc, seq, ONES, 9)?))?;
    items.push(Box::into_inner(nodes.two.log_from(alloc, from)?))?;
    Ok(items)
}

/// A statement of node 2 with a number that its log has not.
fn absent_items(alloc: Global, nodes: &mut Nodes) -> Result<Vec<Item>, Fail> {
    let mut entries = Vec::new(alloc);
    entries.push(entry(alloc, 3, TIMER, &[0, 0, 0, 0, 0, 0, 0, 10])?)?;
    let mut items = Vec::new(alloc);
    items.push(Box::into_inner(nodes.two.statement(alloc, 2, ONES, 9)?))?;
    let segment = nodes.two.segment(alloc, Start::Init, entries)?;
    items.push(Box::into_inner(segment))?;
    Ok(items)
}

/// Two statements of node 2 with one number, a segment of it that deviates, a third statement that contradicts this, and an open challenge.
fn faulty_items(alloc: Global, nodes: &mut Nodes) -> Result<Vec<Item>, Fail> {
    let mut items = Vec::new(alloc);
    items.push(Box::into_inner(nodes.two.statement(alloc, 9, ONES, 9)?))?;
    items.push(Box::into_inner(nodes.two.statement(alloc, 9, TWOS, 9)?))?;
    let mut entries = Vec::new(alloc);
    entries.push(entry(alloc, 2, CHECKPOINT, &[0, 0, 0, 0, 0, 0, 0, 5])?)?;
    let segment = nodes.two.segment(alloc, Start::Init, entries)?;
    items.push(Box::into_inner(segment))?;
    items.push(Box::into_inner(nodes.two.statement(alloc, 2, ONES, 9)?))?;
    items.push(Box::into_inner(nodes.two.audit(alloc, None)?))?;
    Ok(items)
}

/// What is told of them.
fn explanation_of_faulty(alloc: Global) -> Result<Vec<u8>, Fail> {
    let mut nodes = make_nodes(alloc)?;
    let items = faulty_items(alloc, &mut nodes)?;
    explanation_of_items(alloc, &nodes.directory, items)
}

/// What is told of a statement that is quoted.
fn explanation_of_quoted(alloc: Global) -> Result<Vec<u8>, Fail> {
    let mut nodes = make_nodes(alloc)?;
    let items = quoted_items(alloc, &mut nodes)?;
    explanation_of_items(alloc, &nodes.directory, items)
}

/// What is told of a statement with this number, and of the log from an entry on.
fn explanation_of_denied(alloc: Global, seq: u64, from: u64) -> Result<Vec<u8>, Fail> {
    let mut nodes = make_nodes(alloc)?;
    let items = denied_items(alloc, &mut nodes, seq, from)?;
    explanation_of_items(alloc, &nodes.directory, items)
}

/// What is told of a statement with a number that the log has not.
fn explanation_of_absent(alloc: Global) -> Result<Vec<u8>, Fail> {
    let mut nodes = make_nodes(alloc)?;
    let items = absent_items(alloc, &mut nodes)?;
    explanation_of_items(alloc, &nodes.directory, items)
}

/// What is told of the proof of a statement with this number and the log.
fn explanation_of_denial(alloc: Global) -> Result<Vec<u8>, Fail> {
    let mut nodes = make_nodes(alloc)?;
    let items = denied_items(alloc, &mut nodes, 4, 1)?;
    explanation_of_proof(alloc, &nodes.directory, items, NodeId(2))
}

fn quoted_text() -> &'static str {
    "2 nodes: 1 trusted, 0 suspected, 1 exposed; 2 items: 1 statement, 1 segment
1 exposed
  Node 1 signed two hashes for entry 7 of its log.
  Hash 0101010101010101010101010101010101010101010101010101010101010101: item 1, a statement.
  Hash 9b5feb1b21f193fcfe97931715e3180dd7cc4d0e02484675ddec3991419b3c91: item 2, a segment of node 2, whose entry 2 quotes it.
2 trusted
  Its log follows the program in 1 segment: entries 1 to 2 (item 2).
"
}

fn faulty_text() -> &'static str {
    "2 nodes: 1 trusted, 0 suspected, 1 exposed; 5 items: 3 statements, 1 segment, 1 audit challenge
1 trusted (no item)
  No item is of node 1.
2 exposed
  Node 2 signed two hashes for entry 9 of its log.
  Hash 0101010101010101010101010101010101010101010101010101010101010101: item 2, a statement.
  Hash 0202020202020202020202020202020202020202020202020202020202020202: item 3, a statement.
  2 further items convict it, alone or with others: item 1, item 4.
  Item 5, an audit challenge, asks node 2 for its log from the beginning to entry 6.
  A segment of node 2 from the beginning that has entry 6 with the hash 8efdb92f95adedfc3b0901b6cd71095fbf3ba9e41ea7217e94b2d844596172f7 would answer it.
"
}

fn otherwise_text() -> &'static str {
    "2 nodes: 1 trusted, 0 suspected, 1 exposed; 2 items: 1 statement, 1 segment
1 trusted (no item)
  No item is of node 1.
2 exposed
  Node 2 signed a hash for entry 4 that is not in its own log.
  Hash 0101010101010101010101010101010101010101010101010101010101010101: item 1, a statement.
  Its log from entry 1 to entry 6: item 2, a segment.
  There entry 4 is a TIMER of the moment 20, with the hash 843fd7b48a2d6456a197c9813df8c9731d13ca3448e01eda7384e92f2f0fb400.
"
}

fn absent_text() -> &'static str {
    "2 nodes: 1 trusted, 0 suspected, 1 exposed; 2 items: 1 statement, 1 segment
1 trusted (no item)
  No item is of node 1.
2 exposed
  Node 2 signed a hash for entry 2 that its own log leaves out.
  Hash 0101010101010101010101010101010101010101010101010101010101010101: item 1, a statement.
  Its log from entry 1 to entry 3: item 2, a segment.
  There is no entry 2 in it.
"
}

fn off_start_text() -> &'static str {
    "2 nodes: 1 trusted, 0 suspected, 1 exposed; 2 items: 1 statement, 1 segment
1 trusted (no item)
  No item is of node 1.
2 exposed
  Node 2 signed a hash for entry 2 that is not the one before its own log from entry 3 on.
  Hash 0101010101010101010101010101010101010101010101010101010101010101: item 1, a statement.
  Its log from entry 3 to entry 6: item 2, a segment.
  There the hash before entry 3 is 5eb6d27cc7ff64ea65b2b94d3ef56f54100084fa2720ec223d51fa628e19b46f.
"
}

fn before_log_text() -> &'static str {
    "2 nodes: 1 trusted, 0 suspected, 1 exposed; 2 items: 1 statement, 1 segment
1 trusted (no item)
  No item is of node 1.
2 exposed
  Node 2 signed a hash for entry 0 before its own log, which begins with entry 1.
  Hash 0101010101010101010101010101010101010101010101010101010101010101: item 1, a statement.
  Its log from entry 1 to entry 6: item 2, a segment.
"
}

fn denial_text() -> &'static str {
    "The proof exposes node 2 by a statement and a segment.
2 exposed
  Node 2 signed a hash for entry 4 that is not in its own log.
  Hash 0101010101010101010101010101010101010101010101010101010101010101: part 1, a statement.
  Its log from entry 1 to entry 6: part 2, a segment.
  There entry 4 is a TIMER of the moment 20, with the hash 843fd7b48a2d6456a197c9813df8c9731d13ca3448e01eda7384e92f2f0fb400.
"
}

#[test]
fn a_quoted_statement(rt: HostRuntime) -> Result<(), Fail> {
    let told = explanation_of_quoted(rt.alloc())?;
    assert!(rt; told.as_slice() == quoted_text().as_bytes());
    Ok(())
}

#[test]
fn further_items_and_open_challenges(rt: HostRuntime) -> Result<(), Fail> {
    let told = explanation_of_faulty(rt.alloc())?;
    assert!(rt; told.as_slice() == faulty_text().as_bytes());
    Ok(())
}

#[test]
fn a_statement_of_an_entry_that_is_otherwise(rt: HostRuntime) -> Result<(), Fail> {
    let told = explanation_of_denied(rt.alloc(), 4, 1)?;
    assert!(rt; told.as_slice() == otherwise_text().as_bytes());
    Ok(())
}

#[test]
fn a_statement_of_an_entry_that_is_absent(rt: HostRuntime) -> Result<(), Fail> {
    let told = explanation_of_absent(rt.alloc())?;
    assert!(rt; told.as_slice() == absent_text().as_bytes());
    Ok(())
}

#[test]
fn a_statement_just_before_a_segment(rt: HostRuntime) -> Result<(), Fail> {
    let told = explanation_of_denied(rt.alloc(), 2, 3)?;
    assert!(rt; told.as_slice() == off_start_text().as_bytes());
    Ok(())
}

#[test]
fn a_statement_before_the_log(rt: HostRuntime) -> Result<(), Fail> {
    let told = explanation_of_denied(rt.alloc(), 0, 1)?;
    assert!(rt; told.as_slice() == before_log_text().as_bytes());
    Ok(())
}

#[test]
fn a_proof_of_a_statement_and_a_segment(rt: HostRuntime) -> Result<(), Fail> {
    let told = explanation_of_denial(rt.alloc())?;
    assert!(rt; told.as_slice() == denial_text().as_bytes());
    Ok(())
}
