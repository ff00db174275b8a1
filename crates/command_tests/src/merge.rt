//! Stores of two statements, and their unions.

use crate::testing::{equivocation, halves, no_statements, outcome, statements, unsigned};
use commands::fault::Fault;
use commands::task::Task;
use std::alloc::{AllocError, Global};
use std::sync::Wait;
use std::test::Fail;
use std::thread::Threads;

/// How a store of one item begins, as it is written.
const HEAD: &[u8] = b"505253544f5245320000000000000001";

/// The same, as it was written before nodes had second keys.
const OLD_HEAD: &[u8] = b"505253544f5245310000000000000001";

/// A line of a store of one item that begins so.
fn push_store(input: &mut Vec<u8>, head: &[u8], item: &[u8]) -> Result<(), AllocError> {
    input.push(b'\n')?;
    input.extend_from_slice(head)?;
    input.extend_from_slice(item)
}

/// The union of three stores of one item each, the second of which stands as it was written before.
fn union_of_three<H: Threads + Wait + Sync>(
    rt: &H,
    alloc: Global,
    items: [&[u8]; 3],
) -> Result<Vec<u8>, Fail> {
    let (directory, _, _) = statements();
    let mut input = directory.to_vec(alloc)?;
    let [first, second, third] = items;
    push_store(&mut input, HEAD, first)?;
    push_store(&mut input, OLD_HEAD, second)?;
    push_store(&mut input, HEAD, third)?;
    let (answer, written) = outcome(rt, alloc, Task::Merge, input.as_slice());
    answer?;
    Ok(written)
}

/// Whether this is the line of a store of the two statements of `equivocation`, as it is written.
fn is_equivocation(line: &[u8]) -> bool {
    let (_, items) = halves(equivocation(), 177);
    line.strip_prefix(b"505253544f5245320000000000000002")
        .and_then(|store| store.strip_suffix(b"\n"))
        == Some(items)
}

/// The union where a second store, behind an empty one, has a statement with no signature.
fn faulty<H: Threads + Wait + Sync>(
    rt: &H,
    alloc: Global,
) -> Result<(Result<(), Fault>, usize), Fail> {
    let (_, store) = halves(unsigned(), 264);
    let mut input = no_statements().to_vec(alloc)?;
    input.extend_from_slice(store)?;
    let (answer, written) = outcome(rt, alloc, Task::Merge, input.as_slice());
    Ok((answer, written.len()))
}

#[test]
fn stores_are_joined_in_each_order(rt: HostRuntime) -> Result<(), Fail> {
    let (_, first, second) = statements();
    for items in [
        [first, second, first],
        [second, first, second],
        [second, second, first],
    ] {
        let union = union_of_three(&rt, rt.alloc(), items)?;
        assert!(rt; is_equivocation(&union));
    }
    Ok(())
}

#[test]
fn an_old_store_is_written_anew(rt: HostRuntime) {
    let (answer, written) = outcome(&rt, rt.alloc(), Task::Merge, equivocation());
    assert!(rt; answer == Ok(()));
    assert!(rt; is_equivocation(&written));
}

#[test]
fn no_stores_are_empty(rt: HostRuntime) {
    let (directory, _, _) = statements();
    let (answer, written) = outcome(&rt, rt.alloc(), Task::Merge, directory);
    assert!(rt; answer == Ok(()));
    assert!(rt; written.as_slice() == b"505253544f5245320000000000000000\n".as_slice());
}

#[test]
fn each_store_is_checked(rt: HostRuntime) -> Result<(), Fail> {
    let (answer, written) = faulty(&rt, rt.alloc())?;
    assert!(rt; answer == Err(Fault::BadSignature));
    assert!(rt; written == 0);
    Ok(())
}
