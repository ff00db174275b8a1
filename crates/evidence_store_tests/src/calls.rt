//! A store without items, under a directory whose keys nobody has.

use authenticators::{Directory, NodeId};
use evidence_set::Indication;
use evidence_store::{AskFault, Evidence, IndexedStore, PlainStore, UnknownNode};
use ref_programs::Tally;
use std::alloc::Global;
use std::test::Fail;
use store_samples::new_store;

/// The directory of the nodes 1 and 2, as it was written before nodes had second keys.
fn old_directory(alloc: Global) -> Result<Box<Directory>, Fail> {
    let mut text = Vec::from_slice(alloc, b"PRDIRECT\0\0\0\x02")?;
    for (node, root) in [(1, 0x11), (2, 0x22)] {
        text.extend_from_slice(&[0, 0, 0, node, 0, 0, 0, 5, 0, 0, 0, 4])?;
        text.extend_from_slice(&[0, 0, 0, 0, 0, 0, 0, 0, 0, 0, 0, 0, 0, 0, 0, node])?;
        text.extend_from_slice(&[root; 32])?;
    }
    let directory = Directory::from_bytes(alloc, &text)?;
    Ok(Box::new(alloc, directory)?)
}

/// The number of the refusal of a question, or 0.
fn number_of<T: Drop>(answer: Result<T, AskFault>) -> u8 {
    match answer {
        Ok(_) => 0,
        Err(fault) => fault.number(),
    }
}

/// How many items the text of no items added, how many there are then, and whether they are written so; what is said of the nodes;
/// whether something is known of nodes 1, 2 and 3; and by which numbers questions on a node that is not listed are refused.
#[derive(Clone, Copy, Debug, PartialEq, Eq)]
struct Told {
    new: u64,
    count: u64,
    is_written: bool,
    said: [Indication; 2],
    known: [bool; 3],
    refused: [u8; 3],
}

/// The numbers by which the questions on the node are refused.
fn refused_by<S: Evidence<Tally>>(store: &S, node: NodeId) -> [u8; 3] {
    [
        number_of(store.indication(node).map_err(AskFault::from)),
        number_of(store.proof(node)),
        number_of(store.open_challenges(node)),
    ]
}

/// Whether the store knows something of each of the nodes 1, 2 and 3.
pub(crate) fn known_to<S: Evidence<Tally>>(store: &S) -> [bool; 3] {
    [
        store.knows(NodeId(1)),
        store.knows(NodeId(2)),
        store.knows(NodeId(3)),
    ]
}

fn answer_by<S: Evidence<Tally>>(store: &mut S) -> Result<Told, Fail> {
    let new = store.import(&Tally, b"PRSTORE1\0\0\0\0\0\0\0\0")?;
    Ok(Told {
        new,
        count: store.count(),
        is_written: store.export()?.as_slice() == b"PRSTORE2\0\0\0\0\0\0\0\0".as_slice(),
        said: [store.indication(NodeId(1))?, store.indication(NodeId(2))?],
        known: known_to::<S>(store),
        refused: refused_by::<S>(store, NodeId(3)),
    })
}

/// What a store tells that has read the text of no items.
fn read_nothing<S: Evidence<Tally>>(alloc: Global) -> Result<Told, Fail> {
    let directory = old_directory(alloc)?;
    let mut store: Box<S> = new_store(alloc, &directory)?;
    answer_by::<S>(&mut store)
}

#[test]
fn a_store_without_items(rt: HostRuntime) -> Result<(), Fail> {
    let expected = Told {
        new: 0,
        count: 0,
        is_written: true,
        said: [Indication::Trusted, Indication::Trusted],
        known: [false, false, false],
        refused: [44, 44, 44],
    };
    assert!(rt; read_nothing::<PlainStore<Tally>>(rt.alloc())? == expected);
    assert!(rt; read_nothing::<IndexedStore<Tally>>(rt.alloc())? == expected);
    Ok(())
}

#[test]
fn refusals_have_numbers_names_and_lines(rt: HostRuntime) -> Result<(), Fail> {
    for (fault, number, name, line) in [
        (
            AskFault::UnknownNode,
            44,
            "UnknownNode",
            "the node is not listed in the directory",
        ),
        (AskFault::Memory, 99, "Memory", "memory ran out"),
    ] {
        assert_eq!(rt; fault.number(), number);
        assert_eq!(rt; fault.name(), name);
        let told = format!(in rt.alloc(); "{fault}")?;
        assert_eq!(rt; told.as_str(), line);
    }
    assert!(rt; UnknownNode.number() == 44);
    assert!(rt; UnknownNode.name() == "UnknownNode");
    Ok(())
}
