//! Segments of two logs of node 2, which come in both orders.

use containers::write_all;
use evidence_item::Item;
use evidence_samples::{Nodes, Signer, Start, entry, make_nodes};
use evidence_set::Indication;
use evidence_store::{Evidence, IndexedStore, PlainStore};
use log_chain::kind::TIMER;
use ref_programs::Tally;
use std::alloc::Global;
use std::test::Fail;
use store_samples::{Said, new_store, said_by, take_some};

/// Two segments as they ascend, and the directory under which they are valid.
#[derive(Drop)]
struct Logs {
    nodes: Nodes,
    items: Vec<Item>,
}

/// A log of two entries, of which the second is a tick at 11.
fn other_log(alloc: Global, two: &mut Signer) -> Result<Box<Item>, Fail> {
    let mut more = Vec::new(alloc);
    more.push(entry(alloc, 2, TIMER, &[0, 0, 0, 0, 0, 0, 0, 11])?)?;
    two.segment(alloc, Start::Init, more)
}

/// That log, and the entries 1 to 6 of the node's other one.
fn make_list(alloc: Global, two: &mut Signer) -> Result<Vec<Item>, Fail> {
    let mut items = Vec::new(alloc);
    items.push(Box::into_inner(other_log(alloc, two)?))?;
    items.push(Box::into_inner(two.log_from(alloc, 1)?))?;
    Ok(items)
}

fn make_logs(alloc: Global) -> Result<Box<Logs>, Fail> {
    let mut nodes = make_nodes(alloc)?;
    let items = make_list(alloc, &mut nodes.two)?;
    Ok(Box::new(alloc, Logs { nodes, items })?)
}

/// What a store says, and whether it exports the two segments.
#[derive(Clone, Copy, Debug, PartialEq, Eq)]
struct Told {
    said: Said,
    is_written: bool,
}

/// What a store tells that took the segments in this order.
fn answer_by<S: Evidence<Tally>>(
    alloc: Global,
    on: &Logs,
    places: [usize; 2],
) -> Result<Told, Fail> {
    let mut store: Box<S> = new_store(alloc, &on.nodes.directory)?;
    take_some::<S>(alloc, &mut store, &on.items, &places)?;
    let text = write_all(alloc, *b"PRSTORE2", &on.items)?;
    Ok(Told {
        said: said_by::<S>(&store)?,
        is_written: store.export()? == text,
    })
}

fn answers_in_both_orders<S: Evidence<Tally>>(alloc: Global) -> Result<[Told; 2], Fail> {
    let on = make_logs(alloc)?;
    Ok([
        answer_by::<S>(alloc, &on, [1, 0])?,
        answer_by::<S>(alloc, &on, [0, 1])?,
    ])
}

#[test]
fn two_logs_of_a_node_expose_it_in_both_orders(rt: HostRuntime) -> Result<(), Fail> {
    let expected = Told {
        said: Said {
            one: Indication::Trusted,
            two: Indication::Exposed,
            open: 0,
        },
        is_written: true,
    };
    assert!(rt; answers_in_both_orders::<PlainStore<Tally>>(rt.alloc())? == [expected; 2]);
    assert!(rt; answers_in_both_orders::<IndexedStore<Tally>>(rt.alloc())? == [expected; 2]);
    Ok(())
}
