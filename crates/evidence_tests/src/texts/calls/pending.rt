//! Bytes whose front is let go as they are read.

use containers::Pending;
use std::alloc::Global;
use std::test::Fail;

/// So many bytes. Each is the remainder of its place by 251.
fn counted(alloc: Global, len: usize) -> Result<Vec<u8>, Fail> {
    let mut bytes = Vec::with_capacity(alloc, len)?;
    for place in 0..len {
        bytes.push((place % 251) as u8)?;
    }
    Ok(bytes)
}

/// How many bytes are left behind so many more, and the first of them.
fn left_behind(pending: &mut Pending, count: usize) -> (usize, Option<u8>) {
    if count <= pending.rest().len() {
        pending.skip(count);
    }
    let rest = pending.rest();
    (rest.len(), rest.first().copied())
}

#[test]
fn bytes_are_let_go_in_front(rt: HostRuntime) -> Result<(), Fail> {
    let mut pending = Pending::new(counted(rt.alloc(), 10_000_000)?);
    let left = [
        left_behind(&mut pending, 4_000_000),
        left_behind(&mut pending, 1_000_000),
        left_behind(&mut pending, 4_999_999),
        left_behind(&mut pending, 1),
    ];
    let expected = [
        (6_000_000, Some(64)),
        (5_000_000, Some(80)),
        (1, Some(159)),
        (0, None),
    ];
    assert_eq!(rt; left, expected);
    Ok(())
}
