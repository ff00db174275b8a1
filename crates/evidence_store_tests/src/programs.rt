//! One log, before stores whose nodes are to follow one program and another.

use authenticators::NodeId;
use evidence_item::{Item, check_item};
use evidence_samples::{Nodes, Start, entry, make_nodes, receipt};
use evidence_set::Indication;
use evidence_store::{Evidence, IndexedStore, PlainStore};
use log_chain::Entry;
use log_chain::kind::SEND;
use ref_programs::{Relay, Tally};
use replay_verifier::Program;
use std::alloc::Global;
use std::test::Fail;

/// A log of node 2, and the nodes.
#[derive(Drop)]
struct Shown {
    nodes: Nodes,
    log: Box<Item>,
}

/// The receipt of a message that tells to add 5, and the answer that the total is 5.
fn exchange(alloc: Global, nodes: &mut Nodes) -> Result<Vec<Entry>, Fail> {
    let adds = nodes
        .one
        .message(alloc, 7, &[b'A', 0, 0, 0, 0, 0, 0, 0, 5], 9)?;
    let total = [0, 0, 0, 1, b'T', 0, 0, 0, 0, 0, 0, 0, 5];
    let mut entries = Vec::new(alloc);
    entries.push(receipt(alloc, 2, &adds)?)?;
    entries.push(entry(alloc, 3, SEND, &total)?)?;
    Ok(entries)
}

fn show_exchange(alloc: Global) -> Result<Box<Shown>, Fail> {
    let mut nodes = make_nodes(alloc)?;
    let entries = exchange(alloc, &mut nodes)?;
    let log = nodes.two.segment(alloc, Start::Init, entries)?;
    Ok(Box::new(alloc, Shown { nodes, log })?)
}

/// What the store says of node 2 once it has the log.
fn said_with<P: Program + Drop, S: Evidence<P>>(
    alloc: Global,
    program: &P,
    store: &mut S,
    log: &Item,
) -> Result<Indication, Fail> {
    let copy = log.try_clone(alloc)?;
    let checked = check_item(alloc, program, store.directory(), copy)?;
    if store.take(checked).is_err() {
        return Err("memory ran out")?;
    }
    Ok(store.indication(NodeId(2))?)
}

/// What a store says of node 2 that has the log alone.
fn said_of<P: Program + Drop, S: Evidence<P>>(
    alloc: Global,
    program: &P,
    shown: &Shown,
) -> Result<Indication, Fail> {
    let store = S::new(alloc, shown.nodes.directory.try_clone()?)?;
    let mut store = Box::new(alloc, store)?;
    said_with::<P, S>(alloc, program, &mut store, &shown.log)
}

/// What a store of nodes that are to follow Tally says of node 2, and one of nodes that are to follow Relay.
fn said_of_both<S: Evidence<Tally>, T: Evidence<Relay>>(
    alloc: Global,
    shown: &Shown,
) -> Result<(Indication, Indication), Fail> {
    let tally = said_of::<Tally, S>(alloc, &Tally, shown)?;
    let relay = said_of::<Relay, T>(alloc, &Relay, shown)?;
    Ok((tally, relay))
}

/// Node 2 follows Tally, and sends what Relay does not.
#[test]
fn a_log_conforms_to_one_program(rt: HostRuntime) -> Result<(), Fail> {
    let shown = show_exchange(rt.alloc())?;
    let expected = (Indication::Trusted, Indication::Exposed);
    let plain = said_of_both::<PlainStore<Tally>, PlainStore<Relay>>(rt.alloc(), &shown)?;
    assert!(rt; plain == expected);
    let indexed = said_of_both::<IndexedStore<Tally>, IndexedStore<Relay>>(rt.alloc(), &shown)?;
    assert!(rt; indexed == expected);
    Ok(())
}
