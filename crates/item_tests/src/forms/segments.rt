//! What a segment tells of its last number and its pairs.

use authenticators::NodeId;
use item_forms::Segment;
use log_chain::{ByteString, Entry, EntryList, Hash, entry_hash, kind};
use std::alloc::Global;
use std::test::Fail;

const ZEROS: Hash = Hash([0; 32]);

fn no_bytes(alloc: Global) -> ByteString {
    ByteString::from_vec(Vec::new(alloc))
}

/// What a segment tells of its last number, and whether it has pairs, without and with the hashes that are known.
#[derive(Clone, Copy, PartialEq, Eq)]
struct Numbers {
    last: Option<u64>,
    has: [bool; 2],
    has_found: [bool; 2],
}

/// Of a segment of one entry, whose number is 3: its pair, and another one.
fn numbers_of(alloc: Global) -> Result<Numbers, Fail> {
    let entry = Entry {
        seq: 3,
        kind: kind::TIMER,
        content: no_bytes(alloc),
    };
    let hash = entry_hash(ZEROS, &entry);
    let mut entries = Vec::new(alloc);
    entries.push(entry)?;
    let segment = Segment {
        node: NodeId(1),
        prev: ZEROS,
        entries: EntryList::from_vec(entries),
        sig: no_bytes(alloc),
    };
    let known = [hash];
    Ok(Numbers {
        last: segment.last_seq(),
        has: [segment.has_pair(3, hash), segment.has_pair(3, ZEROS)],
        has_found: [
            segment.has_found_pair(&known, 3, hash),
            segment.has_found_pair(&known, 4, hash),
        ],
    })
}

#[test]
fn a_segment_has_numbers_and_pairs(rt: HostRuntime) -> Result<(), Fail> {
    let expected = Numbers {
        last: Some(3),
        has: [true, false],
        has_found: [true, false],
    };
    assert!(rt; numbers_of(rt.alloc())? == expected);
    Ok(())
}
