//! Four items that nobody signed, dealt to shards: a statement of node 1, one of node 2, a message from 1 to 2, and a segment of node 2
//! that quotes a message of node 3.

use authenticators::{Authenticator, NodeId};
use containers::write_all;
use evidence::MAGIC;
use evidence_samples::{Nodes, ZEROS, make_nodes, receipt, turned};
use item_forms::Item;
use log_chain::ByteString;
use messages::Message;
use shards::{Dealing, MOST_SHARDS, Part, Parting, Shards, add_items, extracted, gathered};
use std::alloc::Global;
use std::test::Fail;

fn statement(alloc: Global, node: u32) -> Result<Item, Fail> {
    Ok(Item::auth(Authenticator {
        node: NodeId(node),
        seq: 1,
        hash: ZEROS,
        sig: ByteString::from_vec(Vec::new(alloc)),
    })?)
}

fn message(alloc: Global, from: u32, to: u32) -> Message {
    Message {
        from: NodeId(from),
        to: NodeId(to),
        seq: 2,
        prev: ZEROS,
        sig: ByteString::from_vec(Vec::new(alloc)),
        payload: ByteString::from_vec(Vec::new(alloc)),
    }
}

fn receiving(alloc: Global) -> Result<Item, Fail> {
    let mut entries = Vec::new(alloc);
    entries.push(receipt(alloc, 4, &message(alloc, 3, 2))?)?;
    let sig = ByteString::from_vec(Vec::new(alloc));
    Ok(Item::segment(NodeId(2), ZEROS, entries, sig)?)
}

/// Which of the four items.
#[derive(Clone, Copy)]
enum Which {
    One,
    Two,
    Sent,
    Received,
}

fn make(alloc: Global, which: Which) -> Result<Item, Fail> {
    match which {
        Which::One => statement(alloc, 1),
        Which::Two => statement(alloc, 2),
        Which::Sent => Ok(Item::send(message(alloc, 1, 2))?),
        Which::Received => receiving(alloc),
    }
}

fn make_all(alloc: Global, which: &[Which]) -> Result<Vec<Item>, Fail> {
    let mut items = Vec::new(alloc);
    for one in which {
        items.push(make(alloc, *one)?)?;
    }
    Ok(items)
}

const ALL: [Which; 4] = [Which::One, Which::Two, Which::Received, Which::Sent];

/// Whether the part is the store of the items that are wanted, and counts them.
fn is_just(alloc: Global, part: &Part, wanted: &[Which]) -> Result<bool, Fail> {
    let expected = write_all(alloc, MAGIC, &make_all(alloc, wanted)?)?;
    Ok(part.text.as_slice() == expected.as_slice() && part.items == wanted.len() as u64)
}

/// Whether shard `k` of so many has just the items that are wanted.
fn has_just(alloc: Global, count: u32, k: u32, wanted: &[Which]) -> Result<bool, Fail> {
    let Some(shards) = Shards::new(count) else {
        return Ok(false);
    };
    let items = gathered(make_all(alloc, &ALL)?);
    let parting = Parting::new(alloc, Dealing::ByNode(shards), &items)?;
    let part = parting.part(alloc, k)?;
    is_just(alloc, &part, wanted)
}

#[test]
fn a_shard_has_the_items_that_name_its_nodes(rt: HostRuntime) -> Result<(), Fail> {
    let told = [
        has_just(rt.alloc(), 1, 0, &ALL)?,
        has_just(
            rt.alloc(),
            2,
            0,
            &[Which::Two, Which::Received, Which::Sent],
        )?,
        has_just(
            rt.alloc(),
            2,
            1,
            &[Which::One, Which::Received, Which::Sent],
        )?,
        has_just(rt.alloc(), 3, 0, &[Which::Received])?,
        has_just(rt.alloc(), 3, 1, &[Which::One, Which::Sent])?,
        has_just(
            rt.alloc(),
            3,
            2,
            &[Which::Two, Which::Received, Which::Sent],
        )?,
        has_just(rt.alloc(), 4, 0, &[])?,
        has_just(rt.alloc(), 3, 3, &[])?,
    ];
    assert_eq!(rt; told, [true; 8]);
    Ok(())
}

/// The text of a store of the items.
fn text_of(alloc: Global, which: &[Which]) -> Result<Vec<u8>, Fail> {
    Ok(write_all(alloc, MAGIC, &make_all(alloc, which)?)?)
}

/// Whether two texts, which share items, are gathered as the four; and a text that is cut off adds none.
fn is_one_set(alloc: Global) -> Result<bool, Fail> {
    let mut items = Vec::new(alloc);
    let first = text_of(alloc, &[Which::Two, Which::Received, Which::Sent])?;
    let second = text_of(alloc, &[Which::One, Which::Two])?;
    add_items(alloc, &mut items, &first)?;
    add_items(alloc, &mut items, &second)?;
    let is_refused = add_items(alloc, &mut items, b"PRSTORE2").is_err();
    let count = items.len();
    let text = write_all(alloc, MAGIC, &gathered(items))?;
    let expected = text_of(alloc, &ALL)?;
    Ok(is_refused && count == 5 && text.as_slice() == expected.as_slice())
}

#[test]
fn items_are_gathered_as_one_set(rt: HostRuntime) -> Result<(), Fail> {
    assert!(rt; is_one_set(rt.alloc())?);
    Ok(())
}

#[test]
fn there_are_1_to_1024_shards(rt: HostRuntime) -> Result<(), Fail> {
    let counts = [0, 1, 1024, 1025].map(|n| Shards::new(n).is_some());
    assert_eq!(rt; counts, [false, true, true, false]);
    assert_eq!(rt; MOST_SHARDS, 1024);
    Ok(())
}

/// A segment of node 2, unsigned, whose entries quote a message of node 1, genuinely or with a signature that is turned.
fn quoting(alloc: Global, nodes: &mut Nodes, is_genuine: bool) -> Result<Box<Item>, Fail> {
    let mut sent = nodes.one.message(alloc, 3, b"a", 7)?;
    if !is_genuine {
        let sig = sent.sig.try_clone(alloc)?;
        sent.sig = turned(sig);
    }
    let mut entries = Vec::new(alloc);
    entries.push(receipt(alloc, 4, &sent)?)?;
    let sig = ByteString::from_vec(Vec::new(alloc));
    let item = Item::segment(NodeId(2), ZEROS, entries, sig)?;
    Ok(Box::new(alloc, item)?)
}

/// How many items stand in parts 0 and 1 of the extracts of such a segment, in so many shards.
fn counts_of_extracts(alloc: Global, count: u32, is_genuine: bool) -> Result<(u64, u64), Fail> {
    let mut nodes = make_nodes(alloc)?;
    let item = quoting(alloc, &mut nodes, is_genuine)?;
    let mut items = Vec::new(alloc);
    items.push(Box::into_inner(item))?;
    let Some(shards) = Shards::new(count) else {
        return Ok((0, 0));
    };
    let items = extracted(alloc, &nodes.directory, shards, items)?;
    let parting = Parting::new(alloc, Dealing::Extracts(shards), &items)?;
    let first = parting.part(alloc, 0)?;
    let second = parting.part(alloc, 1)?;
    Ok((first.items, second.items))
}

#[test]
fn a_genuine_quote_goes_to_its_shard(rt: HostRuntime) -> Result<(), Fail> {
    let told = [
        counts_of_extracts(rt.alloc(), 2, true)?,
        counts_of_extracts(rt.alloc(), 2, false)?,
        counts_of_extracts(rt.alloc(), 1, true)?,
    ];
    assert!(rt; told == [(1, 1), (1, 0), (1, 0)]);
    Ok(())
}
