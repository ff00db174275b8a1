//! What node 1 sends as a node does, in node 2's log: as it was sent, and otherwise.

use authenticators::NodeId;
use commitment::{Message, Node};
use evidence_item::{Item, Reason, Verdict, check_item};
use evidence_samples::{Nodes, Start, entry, key_of, make_nodes, receipt, turned};
use evidence_set::Indication;
use evidence_store::{Evidence, IndexedStore, PlainStore};
use log_chain::kind::{SEND, TIMER};
use log_chain::{Entry, Hash};
use ref_programs::Tally;
use std::alloc::Global;
use std::test::Fail;
use store_samples::{new_store, said_by, take_copy};

/// Node 1 under Tally, whose log begins with the number 1.
fn node_one(alloc: Global, nodes: &Nodes) -> Result<Box<Node<Tally>>, Fail> {
    let directory = nodes.directory.try_clone()?;
    let key = key_of(alloc, 1)?;
    match Node::new(alloc, Tally, directory, NodeId(1), Box::into_inner(key), 1) {
        Ok(node) => Ok(Box::new(alloc, node)?),
        Err(refused) => Err(refused.fault)?,
    }
}

/// The nodes, what node 1 sent to node 2, and its log up to there, which the message's signature ends.
#[derive(Drop)]
struct Sent {
    nodes: Nodes,
    message: Box<Message>,
    log: Box<Item>,
}

/// The node's log up to this message that it sent last.
fn log_of(alloc: Global, node: &Node<Tally>, message: &Message) -> Result<Box<Item>, Fail> {
    let (prev, entries) = node.history().segment(1, message.seq)?;
    let sig = message.sig.try_clone(alloc)?;
    let item = Item::segment(NodeId(1), prev, entries.into_vec(), sig)?;
    Ok(Box::new(alloc, item)?)
}

/// What the node's timer sends, which tells node 2 to add 5.
fn sent_by_timer(alloc: Global, node: &mut Node<Tally>) -> Result<Box<Message>, Fail> {
    let mut messages = node.timer(5, [0; 32])?;
    let message = messages.pop().ok_or("nothing was sent")?;
    Ok(Box::new(alloc, message)?)
}

/// Node 1 sends one message. It has the number 3, after INIT and TIMER.
fn send_one(alloc: Global) -> Result<Sent, Fail> {
    let nodes = make_nodes(alloc)?;
    let mut node = node_one(alloc, &nodes)?;
    let message = sent_by_timer(alloc, &mut node)?;
    let log = log_of(alloc, &node, &message)?;
    Ok(Sent {
        nodes,
        message,
        log,
    })
}

/// What of the message is another one in node 2's log.
#[derive(Clone, Copy)]
enum Changed {
    Nothing,
    /// The number is 2, that of node 1's TIMER.
    Number,
    PreviousHash,
    /// The last byte of the signature.
    Signature,
    /// The last byte of the payload.
    Payload,
}

/// A copy of the message, in which this is changed.
fn copy_with(alloc: Global, message: &Message, change: Changed) -> Result<Message, Fail> {
    let mut message = message.try_clone(alloc)?;
    match change {
        Changed::Nothing => {}
        Changed::Number => message.seq = 2,
        Changed::PreviousHash => message.prev = Hash([1; 32]),
        Changed::Signature => message.sig = turned(message.sig),
        Changed::Payload => message.payload = turned(message.payload),
    }
    Ok(message)
}

/// What replay says of node 2's segment, and a store of both nodes.
#[derive(Clone, Copy, Debug, PartialEq, Eq)]
struct Seen {
    verdict: Option<Verdict>,
    one: Indication,
    two: Indication,
}

/// Takes the segment, and tells what is said of it.
fn seen_with<S: Evidence<Tally>>(
    alloc: Global,
    store: &mut S,
    segment: Box<Item>,
) -> Result<Seen, Fail> {
    let checked = check_item(alloc, &Tally, store.directory(), Box::into_inner(segment))?;
    let verdict = checked.verdict().copied();
    store.take(checked)?;
    let said = said_by(store)?;
    Ok(Seen {
        verdict,
        one: said.one,
        two: said.two,
    })
}

/// The same beside node 1's own log.
fn seen_beside_log<S: Evidence<Tally>>(
    alloc: Global,
    on: &Sent,
    segment: Box<Item>,
) -> Result<Seen, Fail> {
    let mut store: Box<S> = new_store(alloc, &on.nodes.directory)?;
    take_copy::<S>(alloc, &mut store, &on.log)?;
    seen_with::<S>(alloc, &mut store, segment)
}

/// What is seen where node 2 receives the message so.
fn seen_of_quote<S: Evidence<Tally>>(
    alloc: Global,
    on: &mut Sent,
    start: Start,
    change: Changed,
) -> Result<Seen, Fail> {
    let message = copy_with(alloc, &on.message, change)?;
    let segment = on.nodes.two.receiving(alloc, start, &message)?;
    seen_beside_log::<S>(alloc, on, segment)
}

const CONFORMING: Seen = Seen {
    verdict: Some(Verdict::Conforms),
    one: Indication::Trusted,
    two: Indication::Trusted,
};

/// Node 2's log deviates at this place.
const fn deviating(at: usize, reason: Reason) -> Seen {
    Seen {
        verdict: Some(Verdict::Deviates { at, reason }),
        one: Indication::Trusted,
        two: Indication::Exposed,
    }
}

/// Whether each quote is seen as is told of it.
fn sees_each_quote<S: Evidence<Tally>>(alloc: Global) -> Result<bool, Fail> {
    let mut on = send_one(alloc)?;
    for (start, change, expected) in [
        (Start::Init, Changed::Nothing, CONFORMING),
        (
            Start::Init,
            Changed::Number,
            deviating(1, Reason::BadReceipt),
        ),
        (
            Start::Init,
            Changed::PreviousHash,
            deviating(1, Reason::BadReceipt),
        ),
        (
            Start::Init,
            Changed::Signature,
            deviating(1, Reason::BadReceipt),
        ),
        (
            Start::Init,
            Changed::Payload,
            deviating(1, Reason::BadReceipt),
        ),
        (
            Start::Checkpoint,
            Changed::Number,
            deviating(1, Reason::BadReceipt),
        ),
    ] {
        if seen_of_quote::<S>(alloc, &mut on, start, change)? != expected {
            return Ok(false);
        }
    }
    Ok(true)
}

#[test]
fn a_message_is_quoted_as_it_was_sent(rt: HostRuntime) -> Result<(), Fail> {
    assert!(rt; sees_each_quote::<PlainStore<Tally>>(rt.alloc())?);
    assert!(rt; sees_each_quote::<IndexedStore<Tally>>(rt.alloc())?);
    Ok(())
}

/// The entries of node 2's log that receive the message twice, with this one between.
fn received_twice(
    alloc: Global,
    message: &Message,
    kind: u8,
    content: &[u8],
) -> Result<Vec<Entry>, Fail> {
    let mut entries = Vec::new(alloc);
    entries.push(receipt(alloc, 2, message)?)?;
    entries.push(entry(alloc, 3, kind, content)?)?;
    entries.push(receipt(alloc, 4, message)?)?;
    Ok(entries)
}

/// What is seen of that.
fn seen_of_two<S: Evidence<Tally>>(
    alloc: Global,
    on: &mut Sent,
    kind: u8,
    content: &[u8],
) -> Result<Seen, Fail> {
    let entries = received_twice(alloc, &on.message, kind, content)?;
    let segment = on.nodes.two.segment(alloc, Start::Init, entries)?;
    seen_beside_log::<S>(alloc, on, segment)
}

/// What is seen where node 2 sends its total to node 1 between the two receipts, as is awaited; and where its timer ticks.
fn seen_of_twice<S: Evidence<Tally>>(alloc: Global) -> Result<[Seen; 2], Fail> {
    let total = [0, 0, 0, 1, b'T', 0, 0, 0, 0, 0, 0, 0, 5];
    let mut on = send_one(alloc)?;
    Ok([
        seen_of_two::<S>(alloc, &mut on, SEND, &total)?,
        seen_of_two::<S>(alloc, &mut on, TIMER, &[0; 8])?,
    ])
}

#[test]
fn a_message_is_received_once(rt: HostRuntime) -> Result<(), Fail> {
    let expected = [
        deviating(3, Reason::DuplicateReceipt),
        deviating(2, Reason::MissingOutput),
    ];
    assert!(rt; seen_of_twice::<PlainStore<Tally>>(rt.alloc())? == expected);
    assert!(rt; seen_of_twice::<IndexedStore<Tally>>(rt.alloc())? == expected);
    Ok(())
}
