//! Verdicts on receipts: of a message that a node of this house sent, quoted as it is and otherwise, and of one that stands twice.

use authenticators::NodeId;
use commitment::{Message, Node};
use evidence_item::{Item, check_item};
use evidence_samples::{Nodes, Start, entry, key_of, make_nodes, receipt};
use log_chain::kind::{SEND, TIMER};
use log_chain::{ByteString, Entry};
use ref_programs::Tally;
use replay_verifier::{Reason, Verdict};
use std::alloc::Global;
use std::test::Fail;

/// The nodes, and a message that node 1 sent to node 2.
#[derive(Drop)]
struct Sent {
    nodes: Nodes,
    message: Box<Message>,
}

/// Node 1 under Tally.
fn sender(alloc: Global, nodes: &Nodes) -> Result<Box<Node<Tally>>, Fail> {
    let directory = nodes.directory.try_clone()?;
    let key = key_of(alloc, 1)?;
    match Node::new(alloc, Tally, directory, NodeId(1), Box::into_inner(key), 1) {
        Ok(node) => Ok(Box::new(alloc, node)?),
        Err(refused) => Err(refused.fault)?,
    }
}

/// What node 1 sends to node 2 at its timer: `A` and the moment, which is 5.
fn send_at_timer(alloc: Global, node: &mut Node<Tally>) -> Result<Box<Message>, Fail> {
    let mut messages = node.timer(5, [0; 32])?;
    match messages.pop() {
        Some(message) => Ok(Box::new(alloc, message)?),
        None => Err("no message")?,
    }
}

fn send_one(alloc: Global) -> Result<Sent, Fail> {
    let nodes = make_nodes(alloc)?;
    let mut node = sender(alloc, &nodes)?;
    let message = send_at_timer(alloc, &mut node)?;
    Ok(Sent { nodes, message })
}

/// The verdict on the segment, which is valid.
fn verdict_on(alloc: Global, nodes: &Nodes, segment: Box<Item>) -> Result<Option<Verdict>, Fail> {
    let segment = Box::into_inner(segment);
    let checked = check_item(alloc, &Tally, &nodes.directory, segment)?;
    Ok(checked.verdict().copied())
}

/// The bytes, of which the one at the place is another one, if there is one.
fn change(bytes: ByteString, place: usize) -> ByteString {
    let mut bytes = bytes.into_vec();
    if let Some(byte) = bytes.get_mut(place) {
        *byte ^= 1;
    }
    ByteString::from_vec(bytes)
}

/// A list of the RECV that quotes the message with the byte at the place changed, if one is given.
fn receipt_with(
    alloc: Global,
    message: &Message,
    place: Option<usize>,
) -> Result<Vec<Entry>, Fail> {
    let mut receipt = receipt(alloc, 2, message)?;
    if let Some(place) = place {
        receipt.content = change(receipt.content, place);
    }
    let mut entries = Vec::new(alloc);
    entries.push(receipt)?;
    Ok(entries)
}

/// The verdict on node 2's segment that begins so and goes on with that RECV.
fn verdict_on_quote(
    alloc: Global,
    on: &mut Sent,
    start: Start,
    place: Option<usize>,
) -> Result<Option<Verdict>, Fail> {
    let entries = receipt_with(alloc, &on.message, place)?;
    let segment = on.nodes.two.segment(alloc, start, entries)?;
    verdict_on(alloc, &on.nodes, segment)
}

/// The verdicts where the message is quoted as it was sent, with another number, with another hash before it and with the last byte
/// of its signature changed; and again with another number, behind a CHECKPOINT.
fn verdicts_on_quotes(alloc: Global) -> Result<[Option<Verdict>; 5], Fail> {
    let mut on = send_one(alloc)?;
    // The sender in 4 bytes, the number in 8, the hash in 32, the signature's length in 4, and the signature of 8,684.
    Ok([
        verdict_on_quote(alloc, &mut on, Start::Init, None)?,
        verdict_on_quote(alloc, &mut on, Start::Init, Some(11))?,
        verdict_on_quote(alloc, &mut on, Start::Init, Some(43))?,
        verdict_on_quote(alloc, &mut on, Start::Init, Some(8731))?,
        verdict_on_quote(alloc, &mut on, Start::Checkpoint, Some(11))?,
    ])
}

/// A deviation at the entry of this place.
fn deviates(at: usize, reason: Reason) -> Option<Verdict> {
    Some(Verdict::Deviates { at, reason })
}

#[test]
fn a_message_is_quoted_as_it_was_sent(rt: HostRuntime) -> Result<(), Fail> {
    let bad = deviates(1, Reason::BadReceipt);
    let expected = [Some(Verdict::Conforms), bad, bad, bad, bad];
    assert_eq!(rt; verdicts_on_quotes(rt.alloc())?, expected);
    Ok(())
}

/// The verdict on INIT, the RECV of the message, an entry of this kind and content, and the same RECV again.
fn verdict_on_two(
    alloc: Global,
    on: &mut Sent,
    kind: u8,
    content: &[u8],
) -> Result<Option<Verdict>, Fail> {
    let mut entries = receipt_with(alloc, &on.message, None)?;
    entries.push(entry(alloc, 3, kind, content)?)?;
    entries.push(receipt(alloc, 4, &on.message)?)?;
    let segment = on.nodes.two.segment(alloc, Start::Init, entries)?;
    verdict_on(alloc, &on.nodes, segment)
}

/// The verdicts where the first receipt is answered by SEND, with `T` and the total to node 1, and where TIMER stands in its place.
fn verdicts_on_two(alloc: Global) -> Result<[Option<Verdict>; 2], Fail> {
    let mut on = send_one(alloc)?;
    let answer = [0, 0, 0, 1, b'T', 0, 0, 0, 0, 0, 0, 0, 5];
    Ok([
        verdict_on_two(alloc, &mut on, SEND, &answer)?,
        verdict_on_two(alloc, &mut on, TIMER, &[0; 8])?,
    ])
}

#[test]
fn a_message_is_received_once(rt: HostRuntime) -> Result<(), Fail> {
    let expected = [
        deviates(3, Reason::DuplicateReceipt),
        deviates(2, Reason::MissingOutput),
    ];
    assert_eq!(rt; verdicts_on_two(rt.alloc())?, expected);
    Ok(())
}
