//! The demands to node 2 that are open, item by item, while their answers come.

use authenticators::NodeId;
use evidence_item::Item;
use evidence_samples::{Nodes, Signer, make_nodes};
use evidence_store::{Evidence, IndexedStore, PlainStore};
use ref_programs::Tally;
use std::alloc::Global;
use std::test::Fail;
use store_samples::{new_store, take_copy};

/// Four demands to node 2, in the order of their spellings, and what answers all of them but the last.
#[derive(Drop)]
struct Demands {
    nodes: Nodes,
    /// To show the log from its beginning on, and from entry 3 on; to acknowledge the message with the number 7, and with 8.
    demands: Vec<Item>,
    /// The message with the number 7, acknowledged.
    ack: Box<Item>,
    /// The log from entry 3 on, which is a CHECKPOINT.
    part: Box<Item>,
    whole: Box<Item>,
}

/// The demand to acknowledge the message of node 1 with this number.
fn to_acknowledge(alloc: Global, one: &mut Signer, seq: u64) -> Result<Box<Item>, Fail> {
    let message = one.message(alloc, seq, b"hello", 9)?;
    let item = Item::send(Box::into_inner(message))?;
    Ok(Box::new(alloc, item)?)
}

fn make_list(alloc: Global, nodes: &mut Nodes) -> Result<Vec<Item>, Fail> {
    let mut demands = Vec::new(alloc);
    demands.push(Box::into_inner(nodes.two.audit(alloc, None)?))?;
    demands.push(Box::into_inner(nodes.two.audit(alloc, Some(3))?))?;
    demands.push(Box::into_inner(to_acknowledge(alloc, &mut nodes.one, 7)?))?;
    demands.push(Box::into_inner(to_acknowledge(alloc, &mut nodes.one, 8)?))?;
    Ok(demands)
}

fn make_ack(alloc: Global, nodes: &mut Nodes) -> Result<Box<Item>, Fail> {
    let message = nodes.one.message(alloc, 7, b"hello", 1)?;
    nodes.two.acknowledged(alloc, message)
}

fn make_demands(alloc: Global) -> Result<Box<Demands>, Fail> {
    let mut nodes = make_nodes(alloc)?;
    let demands = make_list(alloc, &mut nodes)?;
    let ack = make_ack(alloc, &mut nodes)?;
    let part = nodes.two.log_from(alloc, 3)?;
    let whole = nodes.two.log_from(alloc, 1)?;
    let made = Demands {
        nodes,
        demands,
        ack,
        part,
        whole,
    };
    Ok(Box::new(alloc, made)?)
}

/// The place behind all that a list can have.
const NOWHERE: usize = 4;

/// The place of the item among the items.
fn place_of(items: &[Item], item: &Item) -> usize {
    for k in 0..items.len() {
        if items[k] == *item {
            return k;
        }
    }
    NOWHERE
}

/// How many demands to node 2 are open, and the places of these in the list, in the order in which the store has them.
#[derive(Clone, Copy, Debug, PartialEq, Eq)]
struct Open {
    count: usize,
    places: [usize; 4],
}

const fn open_at(count: usize, places: [usize; 4]) -> Open {
    Open { count, places }
}

fn open_of<S: Evidence<Tally>>(store: &S, demands: &[Item]) -> Result<Open, Fail> {
    let found = store.open_challenges(NodeId(2))?;
    let mut places = [NOWHERE; 4];
    for k in 0..found.len().min(4) {
        places[k] = place_of(demands, found[k]);
    }
    Ok(open_at(found.len(), places))
}

fn take_all<S: Evidence<Tally>>(alloc: Global, store: &mut S, items: &[Item]) -> Result<(), Fail> {
    for item in items.iter().rev() {
        take_copy::<S>(alloc, store, item)?;
    }
    Ok(())
}

/// What is open before the first answer, and behind each.
fn each_open<S: Evidence<Tally>>(
    alloc: Global,
    store: &mut S,
    on: &Demands,
) -> Result<[Open; 4], Fail> {
    take_all::<S>(alloc, store, &on.demands)?;
    let before = open_of::<S>(store, &on.demands)?;
    take_copy::<S>(alloc, store, &on.ack)?;
    let acknowledged = open_of::<S>(store, &on.demands)?;
    take_copy::<S>(alloc, store, &on.part)?;
    let shown_in_part = open_of::<S>(store, &on.demands)?;
    take_copy::<S>(alloc, store, &on.whole)?;
    let shown = open_of::<S>(store, &on.demands)?;
    Ok([before, acknowledged, shown_in_part, shown])
}

fn each_open_of_all<S: Evidence<Tally>>(alloc: Global) -> Result<[Open; 4], Fail> {
    let on = make_demands(alloc)?;
    let mut store: Box<S> = new_store(alloc, &on.nodes.directory)?;
    each_open::<S>(alloc, &mut store, &on)
}

#[test]
fn demands_are_open_until_they_are_answered(rt: HostRuntime) -> Result<(), Fail> {
    let expected = [
        open_at(4, [0, 1, 2, 3]),
        open_at(3, [0, 1, 3, NOWHERE]),
        open_at(2, [0, 3, NOWHERE, NOWHERE]),
        open_at(1, [3, NOWHERE, NOWHERE, NOWHERE]),
    ];
    assert!(rt; each_open_of_all::<PlainStore<Tally>>(rt.alloc())? == expected);
    assert!(rt; each_open_of_all::<IndexedStore<Tally>>(rt.alloc())? == expected);
    Ok(())
}

/// What is open of the demands, which come behind two answers.
fn open_behind<S: Evidence<Tally>>(
    alloc: Global,
    on: &Demands,
    first: &Item,
    second: &Item,
) -> Result<Open, Fail> {
    let mut store: Box<S> = new_store(alloc, &on.nodes.directory)?;
    take_copy::<S>(alloc, &mut store, first)?;
    take_copy::<S>(alloc, &mut store, second)?;
    take_all::<S>(alloc, &mut store, &on.demands)?;
    open_of::<S>(&store, &on.demands)
}

/// The same behind a part of the log and the acknowledgement, and behind the part and the whole log.
fn each_open_behind<S: Evidence<Tally>>(alloc: Global) -> Result<[Open; 2], Fail> {
    let on = make_demands(alloc)?;
    let with_ack = open_behind::<S>(alloc, &on, &on.ack, &on.part)?;
    let with_whole = open_behind::<S>(alloc, &on, &on.part, &on.whole)?;
    Ok([with_ack, with_whole])
}

#[test]
fn demands_look_for_their_answers(rt: HostRuntime) -> Result<(), Fail> {
    let expected = [
        open_at(2, [0, 3, NOWHERE, NOWHERE]),
        open_at(2, [2, 3, NOWHERE, NOWHERE]),
    ];
    assert!(rt; each_open_behind::<PlainStore<Tally>>(rt.alloc())? == expected);
    assert!(rt; each_open_behind::<IndexedStore<Tally>>(rt.alloc())? == expected);
    Ok(())
}
