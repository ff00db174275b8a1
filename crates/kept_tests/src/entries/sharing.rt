//! Which entries share one, told by how many own it.

use kept_entries::{EntryPool, SharedEntry};
use log_chain::{ByteString, Entry, Hash};
use outcome::Memory;
use std::alloc::Global;
use std::sync::Arc;
use std::test::*;

/// The parts of an entry, each named by a number.
#[derive(Clone, Copy)]
struct Parts {
    prev: u8,
    seq: u64,
    kind: u8,
    content: u8,
    /// The first byte of its hash, and the last.
    hash: [u8; 2],
    quoted: Option<u8>,
}

const FIRST: Parts = Parts {
    prev: 1,
    seq: 2,
    kind: 3,
    content: 4,
    hash: [5, 6],
    quoted: Some(7),
};

fn hash_of(front: u8, end: u8) -> Hash {
    let mut bytes = [0; 32];
    bytes[0] = front;
    bytes[31] = end;
    Hash(bytes)
}

fn share(
    pool: &mut EntryPool,
    alloc: Global,
    parts: Parts,
) -> Result<Arc<SharedEntry, Global>, Memory> {
    let entry = Entry {
        seq: parts.seq,
        kind: parts.kind,
        content: ByteString::from_slice(alloc, &[parts.content])?,
    };
    let prev = hash_of(parts.prev, 0);
    let hash = hash_of(parts.hash[0], parts.hash[1]);
    let quoted = parts.quoted.map(|q| hash_of(q, 0));
    let handle = pool.share(alloc, prev, &entry, hash, quoted)?;
    Ok(handle)
}

/// How many own the entry, after the first one and this were shared, and again. The pool is one of them.
fn owners(alloc: Global, other: Parts) -> Result<usize, Memory> {
    let mut pool = EntryPool::new(alloc);
    let first = share(&mut pool, alloc, FIRST)?;
    let second = share(&mut pool, alloc, other)?;
    let third = share(&mut pool, alloc, other)?;
    let count = Arc::strong_count(&second);
    drop(first);
    drop(third);
    Ok(count)
}

#[test]
fn entries_that_are_equal_share_one(rt: HostRuntime) -> Result<(), Fail> {
    assert!(rt; owners(rt.alloc(), FIRST)? == 4);
    Ok(())
}

#[test]
fn entries_that_differ_in_a_part_are_two(rt: HostRuntime) -> Result<(), Fail> {
    let others = [
        Parts { prev: 0, ..FIRST },
        Parts { seq: 9, ..FIRST },
        Parts { kind: 9, ..FIRST },
        Parts {
            content: 9,
            ..FIRST
        },
        Parts {
            hash: [5, 9],
            ..FIRST
        },
        Parts {
            hash: [0, 6],
            ..FIRST
        },
        Parts {
            quoted: None,
            ..FIRST
        },
        Parts {
            quoted: Some(9),
            ..FIRST
        },
    ];
    for other in others {
        assert!(rt; owners(rt.alloc(), other)? == 3);
    }
    Ok(())
}

/// The parts of an entry of this number.
fn numbered(number: u64) -> Parts {
    let front = (number % 64) as u8;
    let end = (number % 3) as u8;
    Parts {
        seq: number,
        hash: [front, end],
        ..FIRST
    }
}

/// How many of so many entries are not found again when each is shared a second time.
fn missing(alloc: Global, count: u64) -> Result<u64, Memory> {
    let mut pool = EntryPool::new(alloc);
    for number in 0..count {
        let handle = share(&mut pool, alloc, numbered(number))?;
        drop(handle);
    }
    let mut missing = 0u64;
    for number in 0..count {
        let handle = share(&mut pool, alloc, numbered(number))?;
        if Arc::strong_count(&handle) != 2 {
            missing = missing.wrapping_add(1);
        }
        drop(handle);
    }
    Ok(missing)
}

#[test]
fn each_of_many_is_found_again(rt: HostRuntime) -> Result<(), Fail> {
    assert!(rt; missing(rt.alloc(), 1_100)? == 0);
    Ok(())
}

/// Whether a second pool keeps the entry as it was given to the first.
fn is_kept(alloc: Global, content: &[u8], quoted: Option<Hash>) -> Result<bool, Memory> {
    let entry = Entry {
        seq: 2,
        kind: 3,
        content: ByteString::from_slice(alloc, content)?,
    };
    let mut pool = EntryPool::new(alloc);
    let mut other = EntryPool::new(alloc);
    let first = pool.share(alloc, hash_of(1, 0), &entry, hash_of(5, 6), quoted)?;
    let second = other.share_again(alloc, &first)?;
    let copy = second.to_entry(alloc)?;
    Ok(
        copy == entry
            && second.seq() == 2
            && second.kind() == 3
            && second.content() == content
            && second.prev() == hash_of(1, 0)
            && second.hash() == hash_of(5, 6)
            && second.quoted() == quoted,
    )
}

#[test]
fn entries_are_kept_as_they_were(rt: HostRuntime) -> Result<(), Fail> {
    let contents: [&[u8]; 3] = [&[], &[4; 13], &[4; 14]];
    for content in contents {
        assert!(rt; is_kept(rt.alloc(), content, None)?);
        assert!(rt; is_kept(rt.alloc(), content, Some(hash_of(7, 0)))?);
    }
    Ok(())
}
