//! A demand to acknowledge a message, and items beside it, which answer it or do not.

use crate::calls::known_to;
use evidence_item::Item;
use evidence_samples::{Nodes, Signer, Start, make_nodes, turned};
use evidence_set::Indication;
use evidence_store::{Evidence, IndexedStore, PlainStore};
use messages::Message;
use ref_programs::Tally;
use std::alloc::Global;
use std::test::Fail;
use store_samples::{Said, new_store, said_by, take};

/// A message of node 1 to node 2, by its number, its payload, and the byte of which the C of its signature is made.
#[derive(Clone, Copy)]
struct Sent {
    seq: u64,
    payload: &'static [u8],
    c: u8,
}

/// The message that is to be acknowledged.
const DEMANDED: Sent = Sent {
    seq: 7,
    payload: b"hello",
    c: 9,
};

/// What stands beside the demand.
#[derive(Clone, Copy)]
enum Beside {
    Nothing,
    /// A message with its acknowledgement.
    Ack(Sent),
    /// A segment of node 2 that receives a message.
    Receipt(Sent),
    /// The same, where the last byte of the message's signature is another one.
    FalseReceipt(Sent),
}

fn message(alloc: Global, one: &mut Signer, sent: Sent) -> Result<Box<Message>, Fail> {
    one.message(alloc, sent.seq, sent.payload, sent.c)
}

/// A segment that receives the message under a signature whose last byte is another one.
fn false_receipt(
    alloc: Global,
    two: &mut Signer,
    message: Box<Message>,
) -> Result<Box<Item>, Fail> {
    let mut message = Box::into_inner(message);
    message.sig = turned(message.sig);
    two.receiving(alloc, Start::Init, &message)
}

fn item_of(alloc: Global, nodes: &mut Nodes, beside: Beside) -> Result<Option<Box<Item>>, Fail> {
    let item = match beside {
        Beside::Nothing => return Ok(None),
        Beside::Ack(sent) => {
            let message = message(alloc, &mut nodes.one, sent)?;
            nodes.two.acknowledged(alloc, message)?
        }
        Beside::Receipt(sent) => {
            let message = message(alloc, &mut nodes.one, sent)?;
            nodes.two.receiving(alloc, Start::Init, &message)?
        }
        Beside::FalseReceipt(sent) => {
            let message = message(alloc, &mut nodes.one, sent)?;
            false_receipt(alloc, &mut nodes.two, message)?
        }
    };
    Ok(Some(item))
}

fn demand(alloc: Global, one: &mut Signer) -> Result<Box<Item>, Fail> {
    let message = message(alloc, one, DEMANDED)?;
    let item = Item::send(Box::into_inner(message))?;
    Ok(Box::new(alloc, item)?)
}

/// What a store says that has the demand, and what stands beside it.
fn said<S: Evidence<Tally>>(
    alloc: Global,
    nodes: &mut Nodes,
    beside: Beside,
) -> Result<Said, Fail> {
    let mut store: Box<S> = new_store(alloc, &nodes.directory)?;
    let item = demand(alloc, &mut nodes.one)?;
    take::<S>(alloc, &mut store, item)?;
    if let Some(item) = item_of(alloc, nodes, beside)? {
        take::<S>(alloc, &mut store, item)?;
    }
    said_by::<S>(&store)
}

const OPEN: Said = Said {
    one: Indication::Trusted,
    two: Indication::Suspected,
    open: 1,
};

const ANSWERED: Said = Said {
    one: Indication::Trusted,
    two: Indication::Trusted,
    open: 0,
};

/// Node 1 signed two messages under one number, and node 2 answers for one of them.
const SIGNED_TWO: Said = Said {
    one: Indication::Exposed,
    two: Indication::Trusted,
    open: 0,
};

/// Node 2 logged what node 1 did not sign.
const LOGGED_FALSELY: Said = Said {
    one: Indication::Trusted,
    two: Indication::Exposed,
    open: 1,
};

/// Whether a store says of each item beside the demand what is told of it.
fn says_of_each<S: Evidence<Tally>>(alloc: Global) -> Result<bool, Fail> {
    let next = Sent { seq: 8, ..DEMANDED };
    let again = Sent { c: 1, ..DEMANDED };
    let other = Sent {
        payload: b"other",
        ..DEMANDED
    };
    let mut nodes = make_nodes(alloc)?;
    for (beside, expected) in [
        (Beside::Nothing, OPEN),
        (Beside::Ack(next), OPEN),
        (Beside::Ack(DEMANDED), ANSWERED),
        (Beside::Ack(again), ANSWERED),
        (Beside::Ack(other), SIGNED_TWO),
        (Beside::Receipt(next), OPEN),
        (Beside::Receipt(DEMANDED), ANSWERED),
        (Beside::Receipt(other), SIGNED_TWO),
        (Beside::FalseReceipt(DEMANDED), LOGGED_FALSELY),
    ] {
        if said::<S>(alloc, &mut nodes, beside)? != expected {
            return Ok(false);
        }
    }
    Ok(true)
}

#[test]
fn what_answers_a_demand(rt: HostRuntime) -> Result<(), Fail> {
    assert!(rt; says_of_each::<PlainStore<Tally>>(rt.alloc())?);
    assert!(rt; says_of_each::<IndexedStore<Tally>>(rt.alloc())?);
    Ok(())
}

/// Whether a store that has the demand knows something of its sender and of its receiver, and of nobody else.
fn knows_who_is_named<S: Evidence<Tally>>(alloc: Global) -> Result<bool, Fail> {
    let mut nodes = make_nodes(alloc)?;
    let mut store: Box<S> = new_store(alloc, &nodes.directory)?;
    let item = demand(alloc, &mut nodes.one)?;
    take::<S>(alloc, &mut store, item)?;
    Ok(known_to::<S>(&store) == [true, true, false])
}

/// Whether a store that has the demand writes in pieces what it exports.
fn writes_its_export<S: Evidence<Tally>>(alloc: Global) -> Result<bool, Fail> {
    let mut nodes = make_nodes(alloc)?;
    let mut store: Box<S> = new_store(alloc, &nodes.directory)?;
    let item = demand(alloc, &mut nodes.one)?;
    take::<S>(alloc, &mut store, item)?;
    let mut written = Vec::new(alloc);
    store.export_to(&mut written)?;
    Ok(written.len() > 100 && written.as_slice() == store.export()?.as_slice())
}

#[test]
fn of_whom_a_store_knows(rt: HostRuntime) -> Result<(), Fail> {
    assert!(rt; knows_who_is_named::<PlainStore<Tally>>(rt.alloc())?);
    assert!(rt; knows_who_is_named::<IndexedStore<Tally>>(rt.alloc())?);
    Ok(())
}

#[test]
fn a_store_in_pieces(rt: HostRuntime) -> Result<(), Fail> {
    assert!(rt; writes_its_export::<PlainStore<Tally>>(rt.alloc())?);
    assert!(rt; writes_its_export::<IndexedStore<Tally>>(rt.alloc())?);
    Ok(())
}
