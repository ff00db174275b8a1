//! The text of two items, which is read under the magic of today and under the one of before.

use authenticators::Directory;
use evidence_samples::{Nodes, make_nodes};
use evidence_store::{Evidence, IndexedStore, PlainStore};
use log_chain::Hash;
use ref_programs::Tally;
use std::alloc::Global;
use std::test::Fail;
use store_samples::{new_store, take};

/// The text of two items, and the directory under which they are valid.
#[derive(Drop)]
pub(crate) struct Text {
    pub(crate) directory: Box<Directory>,
    pub(crate) text: Vec<u8>,
}

fn export_of_two<S: Evidence<Tally>>(alloc: Global, nodes: &mut Nodes) -> Result<Vec<u8>, Fail> {
    let mut store: Box<S> = new_store(alloc, &nodes.directory)?;
    let first = nodes.one.statement(alloc, 5, Hash([1; 32]), 9)?;
    let second = nodes.two.log_from(alloc, 3)?;
    take::<S>(alloc, &mut store, first)?;
    take::<S>(alloc, &mut store, second)?;
    Ok(store.export()?)
}

/// The text of a statement of node 1 and of a part of node 2's log.
pub(crate) fn text_of_two<S: Evidence<Tally>>(alloc: Global) -> Result<Text, Fail> {
    let mut nodes = make_nodes(alloc)?;
    let text = export_of_two::<S>(alloc, &mut nodes)?;
    Ok(Text {
        directory: nodes.directory,
        text,
    })
}

/// The text behind this magic.
fn behind(alloc: Global, magic: &[u8; 8], text: &[u8]) -> Result<Vec<u8>, Fail> {
    let mut copy = Vec::from_slice(alloc, magic)?;
    copy.extend_from_slice(text.get(8..).unwrap_or(&[]))?;
    Ok(copy)
}

/// What a store without items makes of a text: the number of its refusal, or 0; how many items it then has; and whether it exports
/// this text.
#[derive(Clone, Copy, Debug, PartialEq, Eq)]
struct Told {
    refusal: u8,
    count: u64,
    is_written: bool,
}

fn answer_by<S: Evidence<Tally>>(store: &mut S, text: &[u8], written: &[u8]) -> Result<Told, Fail> {
    let refusal = match store.import(&Tally, text) {
        Ok(_) => 0,
        Err(fault) => fault.cause.number(),
    };
    Ok(Told {
        refusal,
        count: store.count(),
        is_written: store.export()?.as_slice() == written,
    })
}

/// What is made of the text of two items behind this magic, which is to be written behind that of today.
fn read_behind<S: Evidence<Tally>>(
    alloc: Global,
    on: &Text,
    magic: &[u8; 8],
) -> Result<Told, Fail> {
    let given = behind(alloc, magic, &on.text)?;
    let written = behind(alloc, b"PRSTORE2", &on.text)?;
    let mut store: Box<S> = new_store(alloc, &on.directory)?;
    answer_by::<S>(&mut store, &given, &written)
}

const READ: Told = Told {
    refusal: 0,
    count: 2,
    is_written: true,
};

const REFUSED: Told = Told {
    refusal: 60,
    count: 0,
    is_written: false,
};

/// Whether each magic is read or refused as is told of it.
fn reads_both_magics<S: Evidence<Tally>>(alloc: Global) -> Result<bool, Fail> {
    let on = text_of_two::<S>(alloc)?;
    for (magic, expected) in [
        (b"PRSTORE1", READ),
        (b"PRSTORE2", READ),
        (b"PRSTORE0", REFUSED),
        (b"PRSTORE3", REFUSED),
        (b"PRPACK01", REFUSED),
    ] {
        if read_behind::<S>(alloc, &on, magic)? != expected {
            return Ok(false);
        }
    }
    Ok(true)
}

#[test]
fn both_magics_are_read_and_one_is_written(rt: HostRuntime) -> Result<(), Fail> {
    assert!(rt; reads_both_magics::<PlainStore<Tally>>(rt.alloc())?);
    assert!(rt; reads_both_magics::<IndexedStore<Tally>>(rt.alloc())?);
    Ok(())
}
