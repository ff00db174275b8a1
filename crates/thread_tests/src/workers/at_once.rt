//! Stores that two callers share at once.

use crate::workers::sharing::{Sharing, close_both, merge_nothing, share, statement, take_item};
use authenticators::NodeId;
use evidence_item::Item;
use evidence_samples::{Signer, make_nodes};
use evidence_set::Indication;
use evidence_store::{Evidence, IndexedStore, PlainStore};
use ref_programs::Tally;
use std::alloc::Global;
use std::sync::Wait;
use std::test::Fail;
use std::thread;
use std::thread::Threads;
use store_samples::{new_store, take};
use witness_workers::{Closed, Pass, SharedStore};

/// Takes the items, merges a store without items, asks for node 1 and exports, as far as nothing is refused.
fn every_call<S: Evidence<Tally>, R: Wait>(
    rt: &R,
    alloc: Global,
    shared: &SharedStore<Tally, S>,
    mut pass: Pass,
    items: Vec<Box<Item>>,
) -> Pass {
    for item in items {
        let _ = take_item(rt, alloc, shared, &mut pass, item);
    }
    let _ = merge_nothing(rt, alloc, shared, &mut pass);
    let _ = shared.ask(rt, &mut pass, NodeId(1));
    let _ = shared.export(rt, &mut pass);
    pass
}

/// What two callers at once left.
#[derive(Clone, Copy, PartialEq, Eq)]
struct Left {
    /// How many calls the history has.
    calls: usize,
    /// What the closed store says of node 1, and how many items it has.
    told: Indication,
    count: u64,
    /// Whether its text is that of a store that took the same items alone.
    same_text: bool,
}

/// The statements of these hashes on entry 5.
fn statements(alloc: Global, one: &mut Signer, hashes: &[u8]) -> Result<Vec<Box<Item>>, Fail> {
    let mut items = Vec::new(alloc);
    for hash in hashes {
        items.push(statement(alloc, one, *hash, 0)?)?;
    }
    Ok(items)
}

/// Two callers in threads of their own, with the items that each takes.
fn call_both<S: Evidence<Tally> + Send, R: Threads + Wait + Sync>(
    rt: &R,
    alloc: Global,
    shared: &SharedStore<Tally, S>,
    callers: (Pass, Pass),
    items: (Vec<Box<Item>>, Vec<Box<Item>>),
) -> (Pass, Pass) {
    let (first, second) = callers;
    let (ours, theirs) = items;
    thread::join(
        rt,
        || -> Pass { every_call(rt, alloc, shared, first, ours) },
        || -> Pass { every_call(rt, alloc, shared, second, theirs) },
    )
}

/// Whether two stores have one text.
fn same_text<S: Evidence<Tally>>(one: &S, other: &S) -> Result<bool, Fail> {
    let text = one.export()?;
    Ok(text.as_slice() == other.export()?.as_slice())
}

/// What the closed store has, beside a store that took the same items alone.
fn left_of<S: Evidence<Tally>>(closed: &Closed<S>, alone: &S) -> Result<Left, Fail> {
    Ok(Left {
        calls: closed.history.len(),
        told: closed.store.indication(NodeId(1))?,
        count: closed.store.count(),
        same_text: same_text::<S>(&closed.store, alone)?,
    })
}

/// Two callers take, merge, ask and export, each in a thread of its own.
fn two_at_once<S: Evidence<Tally> + Send, R: Threads + Wait + Sync>(
    rt: &R,
    alloc: Global,
) -> Result<Box<Closed<S>>, Fail> {
    let Sharing {
        mut nodes,
        shared,
        first,
        second,
        ..
    } = share::<S>(alloc)?;
    let ours = statements(alloc, &mut nodes.one, &[1, 2])?;
    let theirs = statements(alloc, &mut nodes.one, &[3, 4])?;
    let passes = call_both(rt, alloc, &shared, (first, second), (ours, theirs));
    close_both(alloc, shared, passes)
}

/// A store that took the same items alone.
fn one_alone<S: Evidence<Tally>>(alloc: Global) -> Result<Box<S>, Fail> {
    let mut nodes = make_nodes(alloc)?;
    let mut store: Box<S> = new_store(alloc, &nodes.directory)?;
    for item in statements(alloc, &mut nodes.one, &[1, 2, 3, 4])? {
        take::<S>(alloc, &mut store, item)?;
    }
    Ok(store)
}

fn two_callers<S: Evidence<Tally> + Send, R: Threads + Wait + Sync>(
    rt: &R,
    alloc: Global,
) -> Result<Left, Fail> {
    let closed: Box<Closed<S>> = two_at_once(rt, alloc)?;
    let alone: Box<S> = one_alone(alloc)?;
    left_of::<S>(&closed, &alone)
}

#[test]
fn two_callers_at_once(rt: HostRuntime) -> Result<(), Fail> {
    let expected = Left {
        calls: 10,
        told: Indication::Exposed,
        count: 4,
        same_text: true,
    };
    assert!(rt; two_callers::<PlainStore<Tally>, HostRuntime>(&rt, rt.alloc())? == expected);
    assert!(rt; two_callers::<IndexedStore<Tally>, HostRuntime>(&rt, rt.alloc())? == expected);
    Ok(())
}

/// Takes both items and asks for node 1.
fn take_and_ask<S: Evidence<Tally>, R: Wait>(
    rt: &R,
    alloc: Global,
    shared: &SharedStore<Tally, S>,
    mut pass: Pass,
    items: (Box<Item>, Box<Item>),
) -> Option<Indication> {
    let _ = take_item(rt, alloc, shared, &mut pass, items.0);
    let _ = take_item(rt, alloc, shared, &mut pass, items.1);
    shared.ask(rt, &mut pass, NodeId(1)).ok()
}

/// One caller takes both items and asks, while the other one merges a store without items.
fn ask_and_merge<S: Evidence<Tally> + Send, R: Threads + Wait + Sync>(
    rt: &R,
    alloc: Global,
    shared: &SharedStore<Tally, S>,
    passes: (Pass, Pass),
    items: (Box<Item>, Box<Item>),
) -> (Option<Indication>, Option<u64>) {
    let (first, mut second) = passes;
    thread::join(
        rt,
        || -> Option<Indication> { take_and_ask(rt, alloc, shared, first, items) },
        || -> Option<u64> { merge_nothing(rt, alloc, shared, &mut second) },
    )
}

/// The same of two statements of one number and two hashes.
fn asked_while_merged<S: Evidence<Tally> + Send, R: Threads + Wait + Sync>(
    rt: &R,
    alloc: Global,
) -> Result<(Option<Indication>, Option<u64>), Fail> {
    let Sharing {
        mut nodes,
        shared,
        first,
        second,
        ..
    } = share::<S>(alloc)?;
    let one = statement(alloc, &mut nodes.one, 1, 0)?;
    let two = statement(alloc, &mut nodes.one, 2, 0)?;
    let done = ask_and_merge(rt, alloc, &shared, (first, second), (one, two));
    Ok(done)
}

#[test]
fn one_asks_while_another_merges(rt: HostRuntime) -> Result<(), Fail> {
    let expected = (Some(Indication::Exposed), Some(0));
    let plain = asked_while_merged::<PlainStore<Tally>, HostRuntime>(&rt, rt.alloc())?;
    assert!(rt; plain == expected);
    let indexed = asked_while_merged::<IndexedStore<Tally>, HostRuntime>(&rt, rt.alloc())?;
    assert!(rt; indexed == expected);
    Ok(())
}
