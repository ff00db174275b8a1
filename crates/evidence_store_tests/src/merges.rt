//! Three witnesses of the same items, which came in three orders, or to one of them each and crosswise to the others.

use evidence_item::Item;
use evidence_samples::{Nodes, ZEROS, make_nodes};
use evidence_store::{Evidence, IndexedStore, PlainStore};
use log_chain::Hash;
use ref_programs::Tally;
use std::alloc::Global;
use std::test::Fail;
use store_samples::{new_store, take_some};

/// How many items of the second store are new to the first, which then has them.
fn merge<S: Evidence<Tally>>(first: &mut S, second: &S) -> Result<u64, Fail> {
    if !first.shares_directory(second) {
        return Err("two directories")?;
    }
    Ok(first.merge(second)?)
}

/// Five items, and the directory under which they are valid.
#[derive(Drop)]
struct Items {
    nodes: Nodes,
    items: Vec<Item>,
}

/// Three statements of node 1 on one entry, with two hashes; a part of node 2's log; and its statement on an entry of it, with
/// another hash.
fn make_list(alloc: Global, nodes: &mut Nodes) -> Result<Vec<Item>, Fail> {
    let mut items = Vec::new(alloc);
    for (hash, c) in [(1, 0), (1, 1), (2, 0)] {
        let item = nodes.one.statement(alloc, 5, Hash([hash; 32]), c)?;
        items.push(Box::into_inner(item))?;
    }
    items.push(Box::into_inner(nodes.two.log_from(alloc, 3)?))?;
    items.push(Box::into_inner(nodes.two.statement(alloc, 4, ZEROS, 9)?))?;
    Ok(items)
}

fn make_items(alloc: Global) -> Result<Box<Items>, Fail> {
    let mut nodes = make_nodes(alloc)?;
    let items = make_list(alloc, &mut nodes)?;
    Ok(Box::new(alloc, Items { nodes, items })?)
}

fn witness<S: Evidence<Tally>>(
    alloc: Global,
    on: &Items,
    places: &[usize],
) -> Result<Box<S>, Fail> {
    let mut store: Box<S> = new_store(alloc, &on.nodes.directory)?;
    take_some::<S>(alloc, &mut store, &on.items, places)?;
    Ok(store)
}

/// Three witnesses.
#[derive(Drop)]
struct Three<S: Drop> {
    first: Box<S>,
    second: Box<S>,
    third: Box<S>,
}

/// Witnesses that took the items at these places.
fn make_three<S: Evidence<Tally>>(
    alloc: Global,
    on: &Items,
    places: [&[usize]; 3],
) -> Result<Box<Three<S>>, Fail> {
    let first = witness(alloc, on, places[0])?;
    let second = witness(alloc, on, places[1])?;
    let third = witness(alloc, on, places[2])?;
    let three = Three {
        first,
        second,
        third,
    };
    Ok(Box::new(alloc, three)?)
}

/// Whether the three export one text.
fn are_alike<S: Evidence<Tally>>(on: &Three<S>) -> Result<bool, Fail> {
    let text = on.first.export()?;
    let second = on.second.export()? == text;
    let third = on.third.export()? == text;
    Ok(second && third)
}

/// How many items were new at each merge, which stores had another's items before the first merge and after the last, and whether
/// all three then export one text.
#[derive(Clone, Copy, Debug, PartialEq, Eq)]
struct Merged {
    new: [u64; 5],
    before: [bool; 2],
    after: [bool; 2],
    alike: bool,
}

fn include_each_other<S: Evidence<Tally>>(on: &Three<S>) -> [bool; 2] {
    [on.first.includes(&on.second), on.second.includes(&on.first)]
}

/// The second's items go to the first, twice; the first's to the third, and the third's to both.
fn merge_each<S: Evidence<Tally>>(on: &mut Three<S>) -> Result<[u64; 5], Fail> {
    Ok([
        merge::<S>(&mut on.first, &on.second)?,
        merge::<S>(&mut on.first, &on.second)?,
        merge::<S>(&mut on.third, &on.first)?,
        merge::<S>(&mut on.second, &on.third)?,
        merge::<S>(&mut on.first, &on.third)?,
    ])
}

fn merge_three<S: Evidence<Tally>>(alloc: Global) -> Result<Merged, Fail> {
    let items = make_items(alloc)?;
    let mut on: Box<Three<S>> = make_three(alloc, &items, [&[0, 3], &[4, 1, 3], &[2]])?;
    let before = include_each_other::<S>(&on);
    let new = merge_each::<S>(&mut on)?;
    Ok(Merged {
        new,
        before,
        after: include_each_other::<S>(&on),
        alike: are_alike::<S>(&on)?,
    })
}

/// Whether witnesses that took the items in three orders export one text.
fn ordered_alike<S: Evidence<Tally>>(alloc: Global) -> Result<bool, Fail> {
    let items = make_items(alloc)?;
    let on: Box<Three<S>> = make_three(
        alloc,
        &items,
        [&[0, 1, 2, 3, 4], &[4, 3, 2, 1, 0], &[2, 4, 0, 2, 3, 1]],
    )?;
    are_alike::<S>(&on)
}

#[test]
fn items_come_in_three_orders(rt: HostRuntime) -> Result<(), Fail> {
    assert!(rt; ordered_alike::<PlainStore<Tally>>(rt.alloc())?);
    assert!(rt; ordered_alike::<IndexedStore<Tally>>(rt.alloc())?);
    Ok(())
}

#[test]
fn items_go_from_store_to_store(rt: HostRuntime) -> Result<(), Fail> {
    let expected = Merged {
        new: [2, 0, 4, 2, 1],
        before: [false, false],
        after: [true, true],
        alike: true,
    };
    assert!(rt; merge_three::<PlainStore<Tally>>(rt.alloc())? == expected);
    assert!(rt; merge_three::<IndexedStore<Tally>>(rt.alloc())? == expected);
    Ok(())
}
