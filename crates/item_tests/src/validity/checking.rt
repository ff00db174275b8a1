//! Checking: each fault, and a valid item of each form, under the directory of the nodes 1 and 2.

use crate::validity::idle::Idle;
use crate::validity::valid_items::{valid_ack, valid_auth, valid_send};
use authenticators::{Authenticator, Directory, NodeId};
use evidence_item::{Item, ItemFault, Statement, check_examined, check_item, examine_all};
use evidence_samples::{Nodes, ZEROS, entry, make_nodes};
use log_chain::{ByteString, Hash, base_hash, kind};
use messages::Message;
use std::alloc::Global;
use std::test::Fail;

fn no_bytes(alloc: Global) -> ByteString {
    ByteString::from_vec(Vec::new(alloc))
}

/// Why the item is refused, if it is.
fn fault_in(alloc: Global, directory: &Directory, item: Item) -> Option<ItemFault> {
    match check_item(alloc, &Idle, directory, item) {
        Ok(_) => None,
        Err(fault) => Some(fault),
    }
}

/// Why a statement of the node that is not signed is refused.
fn auth_fault(alloc: Global, directory: &Directory, node: u32) -> Result<Option<ItemFault>, Fail> {
    let item = Item::auth(Authenticator {
        node: NodeId(node),
        seq: 5,
        hash: ZEROS,
        sig: no_bytes(alloc),
    })?;
    Ok(fault_in(alloc, directory, item))
}

/// The same of a message between the two nodes.
fn message_fault(
    alloc: Global,
    directory: &Directory,
    from: u32,
    to: u32,
) -> Result<Option<ItemFault>, Fail> {
    let item = Item::send(Message {
        from: NodeId(from),
        to: NodeId(to),
        seq: 7,
        prev: ZEROS,
        sig: no_bytes(alloc),
        payload: no_bytes(alloc),
    })?;
    Ok(fault_in(alloc, directory, item))
}

/// The same of a segment of node 1 with entries of these kinds, after the hash.
fn segment_fault(
    alloc: Global,
    directory: &Directory,
    prev: Hash,
    kinds: &[u8],
) -> Result<Option<ItemFault>, Fail> {
    let mut entries = Vec::new(alloc);
    for kind in kinds {
        entries.push(entry(alloc, 1, *kind, &[])?)?;
    }
    let item = Item::segment(NodeId(1), prev, entries, no_bytes(alloc))?;
    Ok(fault_in(alloc, directory, item))
}

fn unsigned(alloc: Global, seq: u64) -> Statement {
    Statement {
        seq,
        hash: ZEROS,
        sig: no_bytes(alloc),
    }
}

/// The same of an audit challenge of node 1 from the number `first` to 6.
fn audit_fault(
    alloc: Global,
    directory: &Directory,
    first: u64,
) -> Result<Option<ItemFault>, Fail> {
    let item = Item::audit(NodeId(1), Some(unsigned(alloc, first)), unsigned(alloc, 6))?;
    Ok(fault_in(alloc, directory, item))
}

/// The same of statements of the nodes 1 and 3, and of messages from 1 to 1, from 3 to 3, and from 1 to 2.
fn first_faults(alloc: Global, directory: &Directory) -> Result<[Option<ItemFault>; 5], Fail> {
    Ok([
        auth_fault(alloc, directory, 1)?,
        auth_fault(alloc, directory, 3)?,
        message_fault(alloc, directory, 1, 1)?,
        message_fault(alloc, directory, 3, 3)?,
        message_fault(alloc, directory, 1, 2)?,
    ])
}

#[test]
fn the_first_fault_is_told(rt: HostRuntime) -> Result<(), Fail> {
    let nodes = make_nodes(rt.alloc())?;
    let expected = [
        Some(ItemFault::BadSignature),
        Some(ItemFault::UnknownNode),
        Some(ItemFault::SelfMessage),
        Some(ItemFault::UnknownNode),
        Some(ItemFault::BadSignature),
    ];
    assert_eq!(rt; first_faults(rt.alloc(), &nodes.directory)?, expected);
    Ok(())
}

/// The same of segments with no entry, and of a TIMER and of a CHECKPOINT after zeros, and of a TIMER after the base.
fn segment_faults(alloc: Global, directory: &Directory) -> Result<[Option<ItemFault>; 4], Fail> {
    Ok([
        segment_fault(alloc, directory, ZEROS, &[])?,
        segment_fault(alloc, directory, ZEROS, &[kind::TIMER])?,
        segment_fault(alloc, directory, ZEROS, &[kind::CHECKPOINT])?,
        segment_fault(alloc, directory, base_hash(), &[kind::TIMER])?,
    ])
}

#[test]
fn a_segment_starts_well(rt: HostRuntime) -> Result<(), Fail> {
    let nodes = make_nodes(rt.alloc())?;
    let expected = [
        Some(ItemFault::EmptySegment),
        Some(ItemFault::BadStart),
        Some(ItemFault::BadSignature),
        Some(ItemFault::BadSignature),
    ];
    assert_eq!(rt; segment_faults(rt.alloc(), &nodes.directory)?, expected);
    Ok(())
}

/// The same of audit challenges from 6 and from 5 to 6.
fn audit_faults(alloc: Global, directory: &Directory) -> Result<[Option<ItemFault>; 2], Fail> {
    Ok([
        audit_fault(alloc, directory, 6)?,
        audit_fault(alloc, directory, 5)?,
    ])
}

#[test]
fn an_audit_challenge_has_a_range(rt: HostRuntime) -> Result<(), Fail> {
    let nodes = make_nodes(rt.alloc())?;
    let expected = [Some(ItemFault::BadRange), Some(ItemFault::BadSignature)];
    assert_eq!(rt; audit_faults(rt.alloc(), &nodes.directory)?, expected);
    Ok(())
}

/// Why a signed statement, audit challenge, message and acknowledged message are refused, if they are.
fn faults_of_signed(alloc: Global, nodes: &mut Nodes) -> Result<[Option<ItemFault>; 4], Fail> {
    let item = valid_auth(alloc, nodes)?;
    let of_auth = fault_in(alloc, &nodes.directory, Box::into_inner(item));
    let item = nodes.one.audit(alloc, Some(5))?;
    let of_audit = fault_in(alloc, &nodes.directory, Box::into_inner(item));
    let item = valid_send(alloc, nodes)?;
    let of_send = fault_in(alloc, &nodes.directory, Box::into_inner(item));
    let item = valid_ack(alloc, nodes)?;
    let of_ack = fault_in(alloc, &nodes.directory, Box::into_inner(item));
    Ok([of_auth, of_audit, of_send, of_ack])
}

#[test]
fn what_is_signed_is_valid(rt: HostRuntime) -> Result<(), Fail> {
    let mut nodes = make_nodes(rt.alloc())?;
    assert_eq!(rt; faults_of_signed(rt.alloc(), &mut nodes)?, [None; 4]);
    Ok(())
}

/// A valid item of each form that is no segment, and a statement without a signature and one of an unlisted node.
fn some_items(alloc: Global, nodes: &mut Nodes) -> Result<Vec<Item>, Fail> {
    let mut items = Vec::new(alloc);
    items.push(Box::into_inner(valid_auth(alloc, nodes)?))?;
    items.push(Box::into_inner(nodes.one.audit(alloc, Some(5))?))?;
    items.push(Box::into_inner(valid_send(alloc, nodes)?))?;
    items.push(Box::into_inner(valid_ack(alloc, nodes)?))?;
    for node in [1, 3] {
        items.push(Item::auth(Authenticator {
            node: NodeId(node),
            seq: 5,
            hash: ZEROS,
            sig: no_bytes(alloc),
        })?)?;
    }
    Ok(items)
}

/// Why the items are refused that are examined together, if they are.
fn faults_together(
    alloc: Global,
    directory: &Directory,
    items: Vec<Item>,
) -> Result<Vec<Option<ItemFault>>, Fail> {
    let examined = examine_all(alloc, directory, &items)?;
    let mut faults = Vec::new(alloc);
    for (item, known) in items.into_iter().zip(examined) {
        let checked = check_examined(alloc, &Idle, directory, item, known);
        faults.push(checked.err())?;
    }
    Ok(faults)
}

#[test]
fn items_that_are_examined_together_are_valid_as_alone(rt: HostRuntime) -> Result<(), Fail> {
    let mut nodes = make_nodes(rt.alloc())?;
    let items = some_items(rt.alloc(), &mut nodes)?;
    let faults = faults_together(rt.alloc(), &nodes.directory, items)?;
    let expected = [
        None,
        None,
        None,
        None,
        Some(ItemFault::BadSignature),
        Some(ItemFault::UnknownNode),
    ];
    assert!(rt; faults.as_slice() == expected.as_slice());
    Ok(())
}

#[test]
fn refusals_have_numbers_and_names(rt: HostRuntime) -> Result<(), Fail> {
    assert_eq!(rt; ItemFault::UnknownNode.number(), 44);
    assert_eq!(rt; ItemFault::BadSignature.name(), "BadSignature");
    Ok(())
}
