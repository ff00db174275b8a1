//! Checking where one growth of the run is refused, as `rt try --test --fail-alloc N` does. Where none is, all is as it is with ample memory.

use crate::workers::checking::{Answer, items_and_directory, numbers};
use authenticators::Directory;
use evidence_item::Item;
use ref_programs::Tally;
use std::alloc::Global;
use std::test::Fail;
use std::thread::Threads;
use witness_workers::{CheckAllFault, OpenGate, check_again, check_all};

/// Checks again, and once more where the growth that is refused was one of that check.
fn again<R: Threads + Sync>(
    rt: &R,
    alloc: Global,
    items: &[Item],
    directory: &Directory,
    answers: &mut Vec<Answer>,
) -> Result<u64, CheckAllFault> {
    match check_again(rt, alloc, &Tally, directory, items, answers, 1, &OpenGate) {
        Ok(0) => Ok(0),
        Ok(_) | Err(CheckAllFault::Memory) => check_again(
            rt, alloc, &Tally, directory, items, answers, 1, &OpenGate,
        ),
        Err(fault) => Err(fault),
    }
}

/// Whether each place has its number or that of `Memory`, and at most one has the latter.
fn one_lacks_memory(told: &[u8], numbers: &[u8]) -> bool {
    let lacking = told.iter().filter(|n| **n == 99).count();
    lacking <= 1
        && told.len() == numbers.len()
        && told.iter().zip(numbers).all(|(a, b)| *a == *b || *a == 99)
}

#[test]
fn a_refused_check_lacks_memory_at_its_own_place(rt: HostRuntime) -> Result<(), Fail> {
    let alloc = rt.alloc();
    let (items, directory) = items_and_directory(alloc)?;
    let mut answers = match check_all(&rt, alloc, &Tally, &directory, &items, 1, &OpenGate) {
        Ok(answers) => answers,
        Err(fault) => {
            assert!(rt; fault == CheckAllFault::Memory);
            return Ok(());
        }
    };
    let first = numbers(alloc, &items, &answers)?;
    assert!(rt; one_lacks_memory(&first, &[0, 0, 0, 49]));
    let left = again(&rt, alloc, &items, &directory, &mut answers)?;
    let told = numbers(alloc, &items, &answers)?;
    assert!(rt; left == 0 && told.as_slice() == [0, 0, 0, 49].as_slice());
    Ok(())
}
