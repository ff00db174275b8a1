//! Proofs that convict, and proofs that do not.

use crate::testing::{no_statements, outcome, statements, two_statements};
use commands::fault::Fault;
use commands::task::Task;
use std::alloc::Global;
use std::sync::Wait;
use std::test::Fail;
use std::thread::Threads;

/// What is answered and written for a proof by these two items.
fn outcome_of_proof<H: Threads + Wait + Sync>(
    rt: &H,
    alloc: Global,
    first: &[u8],
    second: &[u8],
) -> Result<(Result<(), Fault>, Vec<u8>), Fail> {
    let input = two_statements(alloc, first, second)?;
    Ok(outcome(rt, alloc, Task::Check, input.as_slice()))
}

#[test]
fn two_hashes_of_one_number_convict(rt: HostRuntime) -> Result<(), Fail> {
    let (_, first, second) = statements();
    let (answer, written) = outcome_of_proof(&rt, rt.alloc(), first, second)?;
    assert!(rt; answer == Ok(()));
    assert!(rt; written.as_slice() == b"exposes 7\n".as_slice());
    Ok(())
}

#[test]
fn one_statement_twice_convicts_nobody(rt: HostRuntime) -> Result<(), Fail> {
    let (_, first, _) = statements();
    let (answer, written) = outcome_of_proof(&rt, rt.alloc(), first, first)?;
    assert!(rt; answer == Err(Fault::NoContradiction));
    assert!(rt; written.is_empty());
    Ok(())
}

#[test]
fn a_store_is_no_proof(rt: HostRuntime) {
    let (answer, written) = outcome(&rt, rt.alloc(), Task::Check, no_statements());
    assert!(rt; answer == Err(Fault::BadTag));
    assert!(rt; written.is_empty());
}
