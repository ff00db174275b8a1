//! The digests of a store's items, and which items it has.

use evidence_item::Item;
use evidence_samples::{Nodes, ZEROS, make_nodes};
use evidence_store::{Evidence, IndexedStore, PlainStore};
use log_chain::Hash;
use ref_programs::Tally;
use sha2::{Digest, Sha256};
use std::alloc::Global;
use std::test::Fail;
use store_samples::{new_store, take};

/// Takes a statement of node 1, node 2's log, and a demand to show it.
fn fill<S: Evidence<Tally>>(alloc: Global, nodes: &mut Nodes, store: &mut S) -> Result<(), Fail> {
    let statement = nodes.one.statement(alloc, 5, ZEROS, 9)?;
    let log = nodes.two.log_from(alloc, 1)?;
    let audit = nodes.two.audit(alloc, Some(3))?;
    take::<S>(alloc, store, statement)?;
    take::<S>(alloc, store, log)?;
    take::<S>(alloc, store, audit)?;
    Ok(())
}

/// The digest of the text of the item at a place, where there is one.
fn spelled_digest_at<S: Evidence<Tally>>(
    alloc: Global,
    store: &S,
    n: u64,
) -> Result<Option<Hash>, Fail> {
    match store.item_at(n)? {
        None => Ok(None),
        Some(checked) => {
            let text = checked.item().encode(alloc)?;
            Ok(Some(Hash(Sha256::digest(text.as_slice()))))
        }
    }
}

/// Whether the store tells at each place the digest that the item's text has, and none behind the last.
fn tells_digests<S: Evidence<Tally>>(alloc: Global, store: &S) -> Result<bool, Fail> {
    for n in 0..store.count() {
        let digest = store.digest_at(n);
        if digest.is_none() || digest != spelled_digest_at::<S>(alloc, store, n)? {
            return Ok(false);
        }
    }
    Ok(store.digest_at(store.count()).is_none())
}

/// How many items a store has, and whether it tells their digests.
#[derive(Clone, Copy, Debug, PartialEq, Eq)]
struct Told {
    count: u64,
    digests: bool,
}

fn digests_told<S: Evidence<Tally>>(alloc: Global) -> Result<Told, Fail> {
    let mut nodes = make_nodes(alloc)?;
    let mut store: Box<S> = new_store(alloc, &nodes.directory)?;
    fill::<S>(alloc, &mut nodes, &mut store)?;
    Ok(Told {
        count: store.count(),
        digests: tells_digests::<S>(alloc, &store)?,
    })
}

#[test]
fn digests_are_those_of_the_texts(rt: HostRuntime) -> Result<(), Fail> {
    let expected = Told {
        count: 3,
        digests: true,
    };
    assert!(rt; digests_told::<PlainStore<Tally>>(rt.alloc())? == expected);
    assert!(rt; digests_told::<IndexedStore<Tally>>(rt.alloc())? == expected);
    Ok(())
}

/// Whether a store has an item before it took it, and whether afterwards.
fn holds_it<S: Evidence<Tally>>(alloc: Global) -> Result<[bool; 2], Fail> {
    let mut nodes = make_nodes(alloc)?;
    let mut store: Box<S> = new_store(alloc, &nodes.directory)?;
    let other = nodes.one.statement(alloc, 5, Hash([1; 32]), 9)?;
    take::<S>(alloc, &mut store, other)?;
    let statement = nodes.one.statement(alloc, 5, ZEROS, 9)?;
    let before = store.holds(&statement);
    let copy: Item = statement.try_clone(alloc)?;
    take::<S>(alloc, &mut store, statement)?;
    Ok([before, store.holds(&copy)])
}

#[test]
fn a_store_has_what_it_took(rt: HostRuntime) -> Result<(), Fail> {
    assert!(rt; holds_it::<PlainStore<Tally>>(rt.alloc())? == [false, true]);
    assert!(rt; holds_it::<IndexedStore<Tally>>(rt.alloc())? == [false, true]);
    Ok(())
}
