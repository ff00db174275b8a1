//! Answers of node 2, and stores that have them beside their challenges.

use crate::demands::asking::{Part, answered, audit, part_of, refusal};
use crate::demands::log_hashes::{BASE, FIFTH, SECOND};
use crate::demands::node_two::{ADDS_ONE, list_next_key, node_with_log, receive_up_to};
use challenges::send_challenge;
use commitment::{Message, Node};
use evidence_samples::{Nodes, make_nodes};
use evidence_set::Indication;
use evidence_store::{Evidence, IndexedStore, PlainStore};
use item_forms::{Form, Item};
use lms_sign::SecretKey;
use ref_programs::Tally;
use std::alloc::Global;
use std::test::Fail;
use store_samples::{Said, new_store, said_by, take};

/// What a store says that has the challenge and its answer alone, under the node's directory.
fn said_of<S: Evidence<Tally>>(
    alloc: Global,
    node: &Node<Tally>,
    challenge: Box<Item>,
    answer: Box<Item>,
) -> Result<Said, Fail> {
    let mut store: Box<S> = new_store(alloc, node.directory())?;
    take::<S>(alloc, &mut store, challenge)?;
    take::<S>(alloc, &mut store, answer)?;
    said_by::<S>(&store)
}

/// How many entries the node's log has, how many statements it signed, and how many more it can sign by its key.
#[derive(Clone, Copy, Debug, PartialEq, Eq)]
struct Counts {
    entries: usize,
    signed: usize,
    remaining: u32,
}

fn counts_of(node: &Node<Tally>) -> Counts {
    Counts {
        entries: node.history().len(),
        signed: node.signed().len(),
        remaining: node.remaining(),
    }
}

fn copy_of(alloc: Global, item: &Item) -> Result<Box<Item>, Fail> {
    Ok(Box::new(alloc, item.try_clone(alloc)?)?)
}

/// What node 2 shows of its log, and what a store then says.
#[derive(Clone, Copy, Debug, PartialEq, Eq)]
struct Shown {
    part: Option<Part>,
    said: Said,
}

/// Node 2 is audited from entry 2 to entry 5, by statements that it never signed: another key that is equal to its own did.
fn audited<S: Evidence<Tally>>(
    alloc: Global,
    nodes: &mut Nodes,
    node: &mut Node<Tally>,
) -> Result<Shown, Fail> {
    let challenge = audit(alloc, &mut nodes.two, Some((2, SECOND)), (5, FIFTH))?;
    let challenge = Box::new(alloc, challenge)?;
    let given = answered(alloc, node, challenge.try_clone(alloc)?)?;
    let answer = copy_of(alloc, &given.item)?;
    let said = said_of::<S>(alloc, node, challenge, answer)?;
    let part = part_of(alloc, node, Box::into_inner(given).item)?;
    Ok(Shown { part, said })
}

fn shown_by_statements_of_another<S: Evidence<Tally>>(alloc: Global) -> Result<Shown, Fail> {
    let mut nodes = make_nodes(alloc)?;
    let mut node = node_with_log(alloc, &nodes)?;
    audited::<S>(alloc, &mut nodes, &mut node)
}

const ANSWERED: Said = Said {
    one: Indication::Trusted,
    two: Indication::Trusted,
    open: 0,
};

#[test]
fn an_audit_by_statements_of_another_is_answered(rt: HostRuntime) -> Result<(), Fail> {
    let expected = Shown {
        part: Some(Part {
            prev: BASE,
            end: FIFTH,
            first: 1,
            last: 5,
        }),
        said: ANSWERED,
    };
    assert!(rt; shown_by_statements_of_another::<PlainStore<Tally>>(rt.alloc())? == expected);
    assert!(rt; shown_by_statements_of_another::<IndexedStore<Tally>>(rt.alloc())? == expected);
    Ok(())
}

/// What answers the second of two messages of one number: whether it is the first one's acknowledgement, how many messages the node
/// sends, whether it is as it was, and what a store then says.
#[derive(Clone, Copy, Debug, PartialEq, Eq)]
struct Heard {
    is_first: bool,
    messages: usize,
    is_unchanged: bool,
    said: Said,
}

/// Whether the item acknowledges this message.
fn acknowledges(item: &Item, message: &Message) -> bool {
    match item.form() {
        Form::Ack(ack) => ack.message == *message,
        _ => false,
    }
}

/// Node 2, which received the first message, is asked to acknowledge the second one.
fn heard_of_second<S: Evidence<Tally>>(
    alloc: Global,
    node: &mut Node<Tally>,
    first: &Message,
    second: Box<Message>,
) -> Result<Heard, Fail> {
    let challenge = send_challenge(Box::into_inner(second))?;
    let challenge = Box::new(alloc, challenge)?;
    let before = counts_of(node);
    let given = answered(alloc, node, challenge.try_clone(alloc)?)?;
    let is_first = acknowledges(&given.item, first);
    let answer = copy_of(alloc, &given.item)?;
    Ok(Heard {
        is_first,
        messages: given.messages.len(),
        is_unchanged: counts_of(node) == before,
        said: said_of::<S>(alloc, node, challenge, answer)?,
    })
}

/// Node 1 signs two messages to node 2 under the number 4.
fn heard_of_two<S: Evidence<Tally>>(alloc: Global) -> Result<Heard, Fail> {
    let mut nodes = make_nodes(alloc)?;
    let mut node = node_with_log(alloc, &nodes)?;
    let first = nodes.one.message(alloc, 4, b"X", 9)?;
    let second = nodes.one.message(alloc, 4, b"Y", 9)?;
    node.receive(&first, [0; 32])?;
    heard_of_second::<S>(alloc, &mut node, &first, second)
}

/// Its signatures expose node 1, and nothing speaks against node 2.
#[test]
fn the_first_of_two_messages_is_acknowledged(rt: HostRuntime) -> Result<(), Fail> {
    let expected = Heard {
        is_first: true,
        messages: 0,
        is_unchanged: true,
        said: Said {
            one: Indication::Exposed,
            ..ANSWERED
        },
    };
    assert!(rt; heard_of_two::<PlainStore<Tally>>(rt.alloc())? == expected);
    assert!(rt; heard_of_two::<IndexedStore<Tally>>(rt.alloc())? == expected);
    Ok(())
}

/// What answers a message that takes two leaves, once the node signs by its next key: the length of the acknowledgement's signature
/// and its first byte, how many messages the node sends, and what a store then says.
#[derive(Clone, Copy, Debug, PartialEq, Eq)]
struct Signed {
    len: usize,
    first: Option<u8>,
    messages: usize,
    said: Said,
}

/// The acknowledgement's signature, where the item is an acknowledged message: its length and its first byte.
fn signature_of(item: &Item) -> (usize, Option<u8>) {
    match item.form() {
        Form::Ack(ack) => (ack.sig.len(), ack.sig.as_slice().first().copied()),
        _ => (0, None),
    }
}

fn signed_answer<S: Evidence<Tally>>(
    alloc: Global,
    node: &mut Node<Tally>,
    challenge: Box<Item>,
) -> Result<Signed, Fail> {
    let given = answered(alloc, node, challenge.try_clone(alloc)?)?;
    let (len, first) = signature_of(&given.item);
    let answer = copy_of(alloc, &given.item)?;
    Ok(Signed {
        len,
        first,
        messages: given.messages.len(),
        said: said_of::<S>(alloc, node, challenge, answer)?,
    })
}

/// How a challenge was refused where the node's key had one leaf, whether the node was as before, and how it was answered by the next
/// key.
#[derive(Clone, Copy, Debug, PartialEq, Eq)]
struct Rekeyed {
    refusal: u8,
    is_unchanged: bool,
    signed: Signed,
}

fn sign_by(node: &mut Node<Tally>, key: Box<SecretKey>) -> Result<(), Fail> {
    match node.next_key(Box::into_inner(key)) {
        Ok(()) => Ok(()),
        Err(refused) => Err(refused.fault)?,
    }
}

/// The node is asked before it signs by this key, and afterwards.
fn asked_twice<S: Evidence<Tally>>(
    alloc: Global,
    node: &mut Node<Tally>,
    key: Box<SecretKey>,
    challenge: Box<Item>,
) -> Result<Rekeyed, Fail> {
    let before = counts_of(node);
    let refusal = refusal(alloc, node, challenge.try_clone(alloc)?)?;
    let is_unchanged = counts_of(node) == before;
    sign_by(node, key)?;
    Ok(Rekeyed {
        refusal,
        is_unchanged,
        signed: signed_answer::<S>(alloc, node, challenge)?,
    })
}

/// The node uses 31 of the 32 leaves of its key: a message that it does not answer takes one.
fn use_31_leaves(alloc: Global, nodes: &mut Nodes, node: &mut Node<Tally>) -> Result<(), Fail> {
    receive_up_to(alloc, &mut nodes.one, node, 20)?;
    let message = nodes.one.message(alloc, 20, b"X", 9)?;
    node.receive(&message, [0; 32])?;
    Ok(())
}

fn asked_around_next_key<S: Evidence<Tally>>(alloc: Global) -> Result<Rekeyed, Fail> {
    let mut nodes = make_nodes(alloc)?;
    let key = list_next_key(alloc, &mut nodes)?;
    let mut node = node_with_log(alloc, &nodes)?;
    use_31_leaves(alloc, &mut nodes, &mut node)?;
    let message = nodes.one.message(alloc, 21, &ADDS_ONE, 9)?;
    let challenge = send_challenge(Box::into_inner(message))?;
    asked_twice::<S>(alloc, &mut node, key, Box::new(alloc, challenge)?)
}

/// A signature by H5 and W1 has 8,684 bytes; one by key 1 stands behind the key's number.
#[test]
fn the_next_key_answers(rt: HostRuntime) -> Result<(), Fail> {
    let expected = Rekeyed {
        refusal: 36,
        is_unchanged: true,
        signed: Signed {
            len: 8685,
            first: Some(1),
            messages: 1,
            said: ANSWERED,
        },
    };
    assert!(rt; asked_around_next_key::<PlainStore<Tally>>(rt.alloc())? == expected);
    assert!(rt; asked_around_next_key::<IndexedStore<Tally>>(rt.alloc())? == expected);
    Ok(())
}
