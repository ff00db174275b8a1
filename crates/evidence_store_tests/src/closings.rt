//! Audit challenges and the segments that answer them, where numbers tell little: of an exposed node, of a log that ends at the greatest
//! number, and of entries whose numbers fall.

use authenticators::NodeId;
use evidence_item::{Entry, Hash, Item, Statement};
use evidence_samples::{Nodes, Signer, ZEROS, entry, make_nodes};
use evidence_set::Indication;
use evidence_store::{Evidence, IndexedStore, PlainStore};
use log_chain::chain_end;
use log_chain::kind::CHECKPOINT;
use ref_programs::Tally;
use std::alloc::Global;
use std::test::Fail;
use store_samples::{new_store, take_copy};

/// The numbers of three entries.
type Numbers = [u64; 3];

/// Three entries, and up to which and from which between challenges go.
#[derive(Clone, Copy)]
struct Log {
    numbers: Numbers,
    last: usize,
    between: usize,
}

/// Challenges up to one of the last two entries: from the first one, from the other one of the two, and from one that is not there; then
/// the segments of the last two entries and of all three; and in the end two statements that expose the node.
#[derive(Drop)]
struct Scene {
    nodes: Nodes,
    items: Vec<Item>,
}

/// The entries from one place to before another.
fn entries_of(alloc: Global, numbers: Numbers, from: usize, to: usize) -> Result<Vec<Entry>, Fail> {
    let part = numbers.get(from..to).ok_or("no such part")?;
    let mut entries = Vec::new(alloc);
    for number in part {
        entries.push(entry(alloc, *number, CHECKPOINT, &[0; 8])?)?;
    }
    Ok(entries)
}

/// The hash behind so many entries.
fn hash_behind(alloc: Global, numbers: Numbers, count: usize) -> Result<Hash, Fail> {
    let entries = entries_of(alloc, numbers, 0, count)?;
    Ok(chain_end(ZEROS, &entries))
}

/// What node 2 says of an entry.
fn said(
    alloc: Global,
    two: &mut Signer,
    numbers: Numbers,
    place: usize,
) -> Result<Statement, Fail> {
    let seq = *numbers.get(place).ok_or("no such entry")?;
    let hash = hash_behind(alloc, numbers, place.saturating_add(1))?;
    let auth = two.authenticator(alloc, seq, hash, 9)?;
    Ok(Statement {
        seq: auth.seq,
        hash: auth.hash,
        sig: auth.sig,
    })
}

/// What it says of the number of an entry, with another hash.
fn said_otherwise(alloc: Global, two: &mut Signer, seq: u64) -> Result<Statement, Fail> {
    let auth = two.authenticator(alloc, seq, Hash([5; 32]), 9)?;
    Ok(Statement {
        seq: auth.seq,
        hash: auth.hash,
        sig: auth.sig,
    })
}

/// From an entry, or from what is said otherwise of its number, up to another.
fn push_challenge(
    alloc: Global,
    two: &mut Signer,
    log: &Log,
    first: Statement,
    items: &mut Vec<Item>,
) -> Result<(), Fail> {
    let last = said(alloc, two, log.numbers, log.last)?;
    items.push(Item::audit(NodeId(2), Some(first), last)?)?;
    Ok(())
}

fn push_challenges(
    alloc: Global,
    two: &mut Signer,
    log: &Log,
    items: &mut Vec<Item>,
) -> Result<(), Fail> {
    let first = said(alloc, two, log.numbers, 0)?;
    push_challenge(alloc, two, log, first, items)?;
    let between = said(alloc, two, log.numbers, log.between)?;
    push_challenge(alloc, two, log, between, items)?;
    let other = said_otherwise(alloc, two, log.numbers[0])?;
    push_challenge(alloc, two, log, other, items)
}

fn push_segments(
    alloc: Global,
    two: &mut Signer,
    numbers: Numbers,
    items: &mut Vec<Item>,
) -> Result<(), Fail> {
    for from in [1usize, 0] {
        let prev = hash_behind(alloc, numbers, from)?;
        let entries = entries_of(alloc, numbers, from, 3)?;
        items.push(Box::into_inner(two.part(alloc, prev, entries)?))?;
    }
    Ok(())
}

fn make_scene(alloc: Global, log: &Log) -> Result<Box<Scene>, Fail> {
    let mut nodes = make_nodes(alloc)?;
    let mut items = Vec::new(alloc);
    push_challenges(alloc, &mut nodes.two, log, &mut items)?;
    push_segments(alloc, &mut nodes.two, log.numbers, &mut items)?;
    for byte in [1u8, 2] {
        let statement = nodes.two.statement(alloc, 77, Hash([byte; 32]), 9)?;
        items.push(Box::into_inner(statement))?;
    }
    Ok(Box::new(alloc, Scene { nodes, items })?)
}

/// How many challenges are open behind each of the items, and what the store says of node 2 in the end.
#[derive(Clone, Copy, Debug, PartialEq, Eq)]
struct Told {
    open: [usize; 7],
    says: Indication,
}

fn answer_by<S: Evidence<Tally>>(
    alloc: Global,
    on: &Scene,
    order: [usize; 7],
) -> Result<Told, Fail> {
    let mut store: Box<S> = new_store(alloc, &on.nodes.directory)?;
    let mut open = [0; 7];
    for k in 0..7 {
        let item = on.items.get(order[k]).ok_or("no such item")?;
        take_copy::<S>(alloc, &mut store, item)?;
        open[k] = store.open_challenges(NodeId(2))?.len();
    }
    Ok(Told {
        open,
        says: store.indication(NodeId(2))?,
    })
}

/// What both stores tell where the challenges come first, and where they come last.
fn answers_by_both(alloc: Global, log: &Log) -> Result<[Told; 4], Fail> {
    let on = make_scene(alloc, log)?;
    let before = [5, 6, 0, 1, 2, 3, 4];
    let behind = [4, 3, 2, 1, 0, 5, 6];
    Ok([
        answer_by::<PlainStore<Tally>>(alloc, &on, before)?,
        answer_by::<IndexedStore<Tally>>(alloc, &on, before)?,
        answer_by::<PlainStore<Tally>>(alloc, &on, behind)?,
        answer_by::<IndexedStore<Tally>>(alloc, &on, behind)?,
    ])
}

const fn exposed(open: [usize; 7]) -> Told {
    Told {
        open,
        says: Indication::Exposed,
    }
}

/// The one that names no entry stays open.
fn expected() -> [Told; 4] {
    [
        exposed([0, 0, 1, 2, 3, 2, 1]),
        exposed([0, 0, 1, 2, 3, 2, 1]),
        exposed([0, 0, 1, 1, 1, 1, 1]),
        exposed([0, 0, 1, 1, 1, 1, 1]),
    ]
}

const fn rising(numbers: Numbers) -> Log {
    Log {
        numbers,
        last: 2,
        between: 1,
    }
}

#[test]
fn an_exposed_node_answers(rt: HostRuntime) -> Result<(), Fail> {
    assert!(rt; answers_by_both(rt.alloc(), &rising([4, 5, 6]))? == expected());
    Ok(())
}

#[test]
fn a_log_that_ends_at_the_greatest_number_answers(rt: HostRuntime) -> Result<(), Fail> {
    let log = rising([u64::MAX - 2, u64::MAX - 1, u64::MAX]);
    assert!(rt; answers_by_both(rt.alloc(), &log)? == expected());
    Ok(())
}

#[test]
fn entries_whose_numbers_fall_answer(rt: HostRuntime) -> Result<(), Fail> {
    let log = Log {
        numbers: [5, 6, 3],
        last: 1,
        between: 2,
    };
    assert!(rt; answers_by_both(rt.alloc(), &log)? == expected());
    Ok(())
}
