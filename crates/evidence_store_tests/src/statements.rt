//! Two statements of node 1 on one entry, and the first of them once more.

use authenticators::NodeId;
use evidence_item::Item;
use evidence_samples::{Nodes, ZEROS, make_nodes};
use evidence_set::Indication;
use evidence_store::{Evidence, IndexedStore, PlainStore};
use log_chain::Hash;
use proofs::{Parts, check_proof};
use ref_programs::Tally;
use std::alloc::Global;
use std::test::Fail;
use store_samples::{Said, new_store, said_by, take_copy};

/// Two statements on entry 5.
#[derive(Drop)]
struct Pair {
    nodes: Nodes,
    first: Box<Item>,
    second: Box<Item>,
}

/// Statements that the entry has these hashes. The first is signed by an earlier leaf and with another C.
fn make_pair(alloc: Global, first: Hash, second: Hash) -> Result<Box<Pair>, Fail> {
    let mut nodes = make_nodes(alloc)?;
    let first = nodes.one.statement(alloc, 5, first, 0)?;
    let second = nodes.one.statement(alloc, 5, second, 1)?;
    let pair = Pair {
        nodes,
        first,
        second,
    };
    Ok(Box::new(alloc, pair)?)
}

/// A proof against node 1.
#[derive(Clone, Copy, Debug, PartialEq, Eq)]
enum Proved {
    Nothing,
    /// By two statements, of which anybody finds that they convict the node with this number.
    ByStatements(u32),
    Otherwise,
}

fn proved_by<S: Evidence<Tally>>(alloc: Global, store: &S) -> Result<Proved, Fail> {
    let Some(proof) = store.proof(NodeId(1))? else {
        return Ok(Proved::Nothing);
    };
    let NodeId(node) = check_proof(alloc, &Tally, store.directory(), &proof)?;
    match proof.parts() {
        Parts::TwoAuths(..) => Ok(Proved::ByStatements(node)),
        _ => Ok(Proved::Otherwise),
    }
}

/// Whether this is the item at the place.
fn has_at<S: Evidence<Tally>>(store: &S, place: u64, item: &Item) -> Result<bool, Fail> {
    match store.item_at(place)? {
        Some(checked) => Ok(checked.item() == item),
        None => Ok(false),
    }
}

/// What a store answers that takes the first statement, the second and the first, and what it then has: whether these are its two
/// items in this order, and what it says of the nodes.
#[derive(Clone, Copy, Debug, PartialEq, Eq)]
struct Kept {
    took: [bool; 3],
    count: u64,
    in_order: bool,
    said: Said,
    proved: Proved,
}

/// Whether the store has the two items in this order, and none behind them.
fn in_order<S: Evidence<Tally>>(store: &S, pair: &Pair) -> Result<bool, Fail> {
    let first = has_at::<S>(store, 0, &pair.first)?;
    let second = has_at::<S>(store, 1, &pair.second)?;
    Ok(first && second && store.item_at(2)?.is_none())
}

fn take_three<S: Evidence<Tally>>(
    alloc: Global,
    store: &mut S,
    pair: &Pair,
) -> Result<[bool; 3], Fail> {
    let first = take_copy::<S>(alloc, store, &pair.first)?;
    let second = take_copy::<S>(alloc, store, &pair.second)?;
    let again = take_copy::<S>(alloc, store, &pair.first)?;
    Ok([first, second, again])
}

fn kept_of<S: Evidence<Tally>>(alloc: Global, store: &mut S, pair: &Pair) -> Result<Kept, Fail> {
    let took = take_three::<S>(alloc, store, pair)?;
    Ok(Kept {
        took,
        count: store.count(),
        in_order: in_order::<S>(store, pair)?,
        said: said_by::<S>(store)?,
        proved: proved_by::<S>(alloc, store)?,
    })
}

/// What a store makes of two statements with these hashes.
fn keep_two<S: Evidence<Tally>>(alloc: Global, first: Hash, second: Hash) -> Result<Kept, Fail> {
    let pair = make_pair(alloc, first, second)?;
    let mut store: Box<S> = new_store(alloc, &pair.nodes.directory)?;
    kept_of::<S>(alloc, &mut store, &pair)
}

const fn kept_with(one: Indication, proved: Proved) -> Kept {
    Kept {
        took: [true, true, false],
        count: 2,
        in_order: true,
        said: Said {
            one,
            two: Indication::Trusted,
            open: 0,
        },
        proved,
    }
}

/// Each signature makes an item of its own, and one statement is no fault.
#[test]
fn a_statement_is_signed_twice(rt: HostRuntime) -> Result<(), Fail> {
    let expected = kept_with(Indication::Trusted, Proved::Nothing);
    assert!(rt; keep_two::<PlainStore<Tally>>(rt.alloc(), ZEROS, ZEROS)? == expected);
    assert!(rt; keep_two::<IndexedStore<Tally>>(rt.alloc(), ZEROS, ZEROS)? == expected);
    Ok(())
}

#[test]
fn an_entry_has_two_hashes(rt: HostRuntime) -> Result<(), Fail> {
    let (other, expected) = (
        Hash([1; 32]),
        kept_with(Indication::Exposed, Proved::ByStatements(1)),
    );
    assert!(rt; keep_two::<PlainStore<Tally>>(rt.alloc(), ZEROS, other)? == expected);
    assert!(rt; keep_two::<IndexedStore<Tally>>(rt.alloc(), ZEROS, other)? == expected);
    Ok(())
}
