//! The longest group, and one that is a byte longer.

use crate::stores::fixtures::{
    EMPTY, File, Kept, Seen, bytes_in, directory_of, file_of, open_on, take,
};
use crate::texts::{directory, long_signature};
use authenticators::NodeId;
use evidence_samples::entry;
use evidence_store::{Evidence, Item, PlainStore};
use log_chain::kind::TIMER;
use log_chain::{ByteString, Entry, base_hash};
use ref_programs::Tally;
use std::alloc::Global;
use std::test::Fail;
use std::thread::Threads;

/// The longest content of an entry.
const LONGEST: usize = 131_072;

/// How long the last of 64 entries is, where the others are the longest, of a segment that makes a group of 8,388,608 bytes behind a basis of
/// 21 and 143. Before the text stand 9 bytes. The segment has 45 beside its entries and its signature, an entry 13 beside its content, and
/// the signature 1,292.
const LAST: usize = 8_388_608 - 21 - 143 - 9 - 45 - 1_292 - 64 * 13 - 63 * LONGEST;

/// The entry with this number, whose content is so many zeros.
fn entry_of(alloc: Global, seq: u64, len: usize) -> Result<Entry, Fail> {
    entry(alloc, seq, TIMER, &vec![in alloc; 0u8; len]?)
}

/// That segment, of node 2.
fn long_item(alloc: Global) -> Result<Box<Item>, Fail> {
    let mut entries = Vec::new(alloc);
    for seq in 1..64 {
        entries.push(entry_of(alloc, seq, LONGEST)?)?;
    }
    entries.push(entry_of(alloc, 64, LAST)?)?;
    let sig = ByteString::from_vec(hex::decode(alloc, long_signature())?);
    let item = Item::segment(NodeId(2), base_hash(), entries, sig)?;
    Ok(Box::new(alloc, item)?)
}

/// What comes of the item: the number by which it is refused, 0 where it is taken; the store; and how many bytes its file has.
#[derive(Clone, Copy, Debug, PartialEq, Eq)]
struct Long {
    told: u8,
    seen: Seen,
    bytes: usize,
}

/// A new store under this program's name takes the item.
fn take_under<R: Threads + Sync>(rt: &R, alloc: Global, name: &str) -> Result<Long, Fail> {
    let listed = directory_of(alloc, directory())?;
    let file = file_of(alloc, Vec::new(alloc), 0);
    let mut store = open_on::<R, PlainStore<Tally>, File>(rt, alloc, name, listed, file, 1)??;
    let told = number_of(alloc, &mut store)?;
    Ok(Long {
        told,
        seen: Seen::of(&store)?,
        bytes: bytes_in(&store).len(),
    })
}

/// The number by which the store refuses the item, or 0.
fn number_of(alloc: Global, store: &mut Kept<PlainStore<Tally>>) -> Result<u8, Fail> {
    match take(alloc, store, long_item(alloc)?)? {
        Ok(_) => Ok(0),
        Err(fault) => Ok(fault.number()),
    }
}

/// The basis has 21 bytes for a program's name of four.
#[test]
fn the_longest_group_is_taken(rt: HostRuntime) -> Result<(), Fail> {
    let longest = take_under(&rt, rt.alloc(), "four")?;
    assert!(rt; (longest.told, longest.seen.count) == (0, 1));
    assert!(rt; (longest.seen.len, longest.bytes) == (8_388_608, 8_388_609));
    Ok(())
}

/// It has 22 for a name of five.
#[test]
fn a_longer_group_is_refused(rt: HostRuntime) -> Result<(), Fail> {
    let refused = Long {
        told: 118,
        seen: EMPTY,
        bytes: 1,
    };
    assert!(rt; take_under(&rt, rt.alloc(), "tally")? == refused);
    Ok(())
}
