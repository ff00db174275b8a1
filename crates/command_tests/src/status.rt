//! Outside values.

mod signed;

use crate::testing::{equivocation, halves, no_statements, outcome, unsigned};
use commands::fault::{Fault, RefusalLine};
use commands::task::Task;
use std::alloc::Global;
use std::sync::Wait;
use std::test::Fail;
use std::thread::Threads;

/// What is answered and written for an input.
fn outcome_of_status<H: Threads + Wait + Sync>(
    rt: &H,
    alloc: Global,
    input: &'static [u8],
) -> (Result<(), Fault>, Vec<u8>) {
    outcome(rt, alloc, Task::Status, input)
}

#[test]
fn nodes_without_statements_are_trusted(rt: HostRuntime) {
    let (answer, written) = outcome_of_status(&rt, rt.alloc(), no_statements());
    assert!(rt; answer == Ok(()));
    assert!(rt; written.as_slice() == b"1 trusted\n2 trusted\n".as_slice());
}

#[test]
fn a_node_with_two_hashes_is_exposed(rt: HostRuntime) {
    let (answer, written) = outcome_of_status(&rt, rt.alloc(), equivocation());
    assert!(rt; answer == Ok(()));
    assert!(rt; written.as_slice() == b"7 exposed\n".as_slice());
}

#[test]
fn refusals_are_told(rt: HostRuntime) {
    let inputs: [(&'static [u8], Fault, &str); 6] = [
        (b"", Fault::LineCount, "refused 104 LineCount"),
        (
            b"0g\n505253544f5245310000000000000000",
            Fault::BadHex,
            "refused 103 BadHex",
        ),
        (
            b"5052444952454354\n",
            Fault::LineCount,
            "refused 104 LineCount",
        ),
        (
            b"5052444952454332000000010000000100\n505253544f5245320000000000000000",
            Fault::KeyCount,
            "refused 26 KeyCount",
        ),
        (
            b"5052444952454332000000010000000109\n505253544f5245320000000000000000",
            Fault::KeyCount,
            "refused 26 KeyCount",
        ),
        (unsigned(), Fault::BadSignature, "refused 49 BadSignature"),
    ];
    for (input, fault, text) in inputs {
        let (answer, written) = outcome_of_status(&rt, rt.alloc(), input);
        assert!(rt; answer == Err(fault));
        assert!(rt; written.is_empty());
        let line = RefusalLine { fault };
        let shown = format!(in rt.alloc(); "{line}").expect(&rt, "memory");
        assert!(rt; shown.as_str() == text);
    }
}

/// The number of the refusal of nodes 1 and 2 with this store; 0 where the nodes are told of.
fn number_of<H: Threads + Wait + Sync>(rt: &H, alloc: Global, store: &[u8]) -> Result<u8, Fail> {
    let (directory, _) = halves(no_statements(), 265);
    let mut input = directory.to_vec(alloc)?;
    input.extend_from_slice(store)?;
    match outcome(rt, alloc, Task::Status, input.as_slice()).0 {
        Ok(()) => Ok(0),
        Err(fault) => Ok(fault.number()),
    }
}

/// As many items as a number may say, an item and a signature as long as they may be, none of which is there, and what is longer.
#[test]
fn limits_are_told_before_what_is_cut_off(rt: HostRuntime) -> Result<(), Fail> {
    let stores = [
        ("505253544f524531ffffffffffffffff", 40),
        ("505253544f524532ffffffffffffffff", 40),
        ("505253544f52453200000000000000012000f49a", 40),
        ("505253544f52453200000000000000012000f49b", 42),
        (
            "505253544f5245320000000000000001000000310100000001000000000000000500000000000000000000000000000000000000000000000000000000000000000000246d",
            40,
        ),
        (
            "505253544f5245320000000000000001000000310100000001000000000000000500000000000000000000000000000000000000000000000000000000000000000000246e",
            42,
        ),
    ];
    for (store, number) in stores {
        assert!(rt; number_of(&rt, rt.alloc(), store.as_bytes())? == number);
    }
    Ok(())
}
