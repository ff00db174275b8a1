//! Demands to acknowledge messages, beside each other: an answer closes those of its number, whatever came first.

use authenticators::NodeId;
use evidence_item::Item;
use evidence_samples::{Nodes, Signer, Start, make_nodes};
use evidence_store::{Evidence, IndexedStore, PlainStore};
use messages::Message;
use ref_programs::Tally;
use std::alloc::Global;
use std::test::Fail;
use store_samples::{new_store, take_copy};

/// The demands, and what answers those of node 1's message with the number 7.
#[derive(Drop)]
struct Beside {
    nodes: Nodes,
    demands: Vec<Item>,
    ack: Box<Item>,
    segment: Box<Item>,
}

fn sent(alloc: Global, from: &mut Signer, seq: u64, c: u8) -> Result<Message, Fail> {
    let message = from.message(alloc, seq, b"hello", c)?;
    Ok(Box::into_inner(message))
}

/// Node 1's messages with the numbers 6, 7, 7 under another signature, and 8.
fn make_demands(alloc: Global, nodes: &mut Nodes) -> Result<Vec<Item>, Fail> {
    let mut demands = Vec::new(alloc);
    demands.push(Item::send(sent(alloc, &mut nodes.one, 6, 9)?)?)?;
    demands.push(Item::send(sent(alloc, &mut nodes.one, 7, 9)?)?)?;
    demands.push(Item::send(sent(alloc, &mut nodes.one, 7, 8)?)?)?;
    demands.push(Item::send(sent(alloc, &mut nodes.one, 8, 9)?)?)?;
    Ok(demands)
}

fn make_beside(alloc: Global) -> Result<Box<Beside>, Fail> {
    let mut nodes = make_nodes(alloc)?;
    let demands = make_demands(alloc, &mut nodes)?;
    let message = nodes.one.message(alloc, 7, b"hello", 1)?;
    let segment = nodes.two.receiving(alloc, Start::Init, &message)?;
    let ack = nodes.two.acknowledged(alloc, message)?;
    let made = Beside {
        nodes,
        demands,
        ack,
        segment,
    };
    Ok(Box::new(alloc, made)?)
}

fn take_demands<S: Evidence<Tally>>(
    alloc: Global,
    store: &mut S,
    demands: &[Item],
) -> Result<(), Fail> {
    for item in demands {
        take_copy::<S>(alloc, store, item)?;
    }
    Ok(())
}

/// How many demands to node 2 are open before the answer and behind it, and where the answer came first.
fn open_around<S: Evidence<Tally>>(
    alloc: Global,
    on: &Beside,
    answer: &Item,
) -> Result<[usize; 3], Fail> {
    let mut store: Box<S> = new_store(alloc, &on.nodes.directory)?;
    take_demands::<S>(alloc, &mut store, &on.demands)?;
    let before = store.open_challenges(NodeId(2))?.len();
    take_copy::<S>(alloc, &mut store, answer)?;
    let behind = store.open_challenges(NodeId(2))?.len();
    let mut turned: Box<S> = new_store(alloc, &on.nodes.directory)?;
    take_copy::<S>(alloc, &mut turned, answer)?;
    take_demands::<S>(alloc, &mut turned, &on.demands)?;
    let first = turned.open_challenges(NodeId(2))?.len();
    Ok([before, behind, first])
}

/// The same of an acknowledgement, and of a segment with a receipt.
fn open_around_each<S: Evidence<Tally>>(alloc: Global) -> Result<[[usize; 3]; 2], Fail> {
    let on = make_beside(alloc)?;
    let acknowledged = open_around::<S>(alloc, &on, &on.ack)?;
    let received = open_around::<S>(alloc, &on, &on.segment)?;
    Ok([acknowledged, received])
}

#[test]
fn an_answer_closes_the_demands_of_its_message_alone(rt: HostRuntime) -> Result<(), Fail> {
    assert!(rt; open_around_each::<PlainStore<Tally>>(rt.alloc())? == [[4, 2, 2], [4, 2, 2]]);
    assert!(rt; open_around_each::<IndexedStore<Tally>>(rt.alloc())? == [[4, 2, 2], [4, 2, 2]]);
    Ok(())
}
