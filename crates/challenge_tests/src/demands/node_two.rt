//! Node 2 at work: its log of INIT, timers and checkpoints, what it receives, and its next key.

use authenticators::NodeId;
use commitment::Node;
use evidence_samples::{Nodes, Signer, key_of, next_key_of};
use lms_sign::SecretKey;
use ref_programs::Tally;
use std::alloc::Global;
use std::test::Fail;

/// What a message says that adds one: its receiver answers it.
pub(crate) const ADDS_ONE: [u8; 9] = [b'A', 0, 0, 0, 0, 0, 0, 0, 1];

/// Lists key 1 of node 2, and gives it.
pub(crate) fn list_next_key(alloc: Global, nodes: &mut Nodes) -> Result<Box<SecretKey>, Fail> {
    let key = next_key_of(alloc, 2)?;
    nodes.directory.add_key(NodeId(2), key.public_key())?;
    Ok(key)
}

/// Node 2 under Tally, whose log begins with the number 1.
fn new_node(alloc: Global, nodes: &Nodes) -> Result<Box<Node<Tally>>, Fail> {
    let directory = nodes.directory.try_clone()?;
    let key = key_of(alloc, 2)?;
    match Node::new(alloc, Tally, directory, NodeId(2), Box::into_inner(key), 1) {
        Ok(node) => Ok(Box::new(alloc, node)?),
        Err(refused) => Err(refused.fault)?,
    }
}

/// The same with the log 1 INIT, 2 TIMER, 3 CHECKPOINT, 4 TIMER, 5 TIMER, 6 CHECKPOINT.
pub(crate) fn node_with_log(alloc: Global, nodes: &Nodes) -> Result<Box<Node<Tally>>, Fail> {
    let mut node = new_node(alloc, nodes)?;
    node.timer(10, [0; 32])?;
    node.checkpoint()?;
    node.timer(20, [0; 32])?;
    node.timer(30, [0; 32])?;
    node.checkpoint()?;
    Ok(node)
}

/// Node 2 receives messages with the numbers from 5 up to this one. It acknowledges and answers each: two leaves of its key.
pub(crate) fn receive_up_to(
    alloc: Global,
    one: &mut Signer,
    node: &mut Node<Tally>,
    end: u64,
) -> Result<(), Fail> {
    for seq in 5..end {
        let message = one.message(alloc, seq, &ADDS_ONE, 9)?;
        node.receive(&message, [0; 32])?;
    }
    Ok(())
}
