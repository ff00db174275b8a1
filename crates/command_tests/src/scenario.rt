//! Scenarios of a few nodes, and texts that are none.

use crate::testing::outcome;
use commands::fault::{Fault, RefusalLine};
use commands::task::Task;
use std::alloc::{AllocError, Global};
use std::sync::Wait;
use std::test::Fail;
use std::thread::Threads;

/// What is answered and written for a scenario's text.
fn outcome_of_run<H: Threads + Wait + Sync>(
    rt: &H,
    alloc: Global,
    workers: u32,
    input: &'static [u8],
) -> (Result<(), Fault>, Vec<u8>) {
    outcome(rt, alloc, Task::Run(workers), input)
}

#[test]
fn each_witness_tells_of_each_node(rt: HostRuntime) {
    let text =
        b"witnesses 2\nnode 1 honest\nnode 2 wrong\nnode 3 mute\ntimer 1 5\ntimer 2 7\naudit 2\n";
    for workers in [1, 2, 8] {
        let (answer, written) = outcome_of_run(&rt, rt.alloc(), workers, text);
        assert!(rt; answer == Ok(()));
        assert!(rt;
            written.as_slice()
                == b"witness 0\n1 trusted\n2 exposed\n3 suspected\nwitness 1\n1 trusted\n2 exposed\n3 suspected\nequal\n".as_slice()
        );
    }
}

#[test]
fn a_text_that_is_no_scenario_is_refused(rt: HostRuntime) {
    let (answer, written) = outcome_of_run(&rt, rt.alloc(), 1, b"witnesses 9\nnode 1 honest\n");
    assert!(rt; answer == Err(Fault::BadScenario));
    assert!(rt; written.is_empty());
}

#[test]
fn a_wrong_number_of_workers_is_refused(rt: HostRuntime) -> Result<(), Fail> {
    let text = b"witnesses 1\nnode 1 honest\ntimer 1 5\n";
    for workers in [0, 9] {
        assert!(rt; is_refused(&rt, rt.alloc(), workers, text, "refused 90 BadWorkers")?);
    }
    Ok(())
}

/// Node 1's timer ticks so many times, and these lines follow.
fn push_ticks(text: &mut Vec<u8>, count: u32, lines: &[u8]) -> Result<(), AllocError> {
    for _ in 0..count {
        text.extend_from_slice(b"timer 1 5\n")?;
    }
    text.extend_from_slice(lines)
}

/// Whether the scenario is refused with this line, and nothing written.
fn is_refused<H: Threads + Wait + Sync>(
    rt: &H,
    alloc: Global,
    workers: u32,
    text: &[u8],
    line: &str,
) -> Result<bool, Fail> {
    let (answer, written) = outcome(rt, alloc, Task::Run(workers), text);
    let Err(fault) = answer else {
        return Ok(false);
    };
    let told = format!(in alloc; "{}", RefusalLine { fault })?;
    Ok(told.as_str() == line && written.is_empty())
}

/// A mute node drops each message, and its sender signs until its key is spent.
#[test]
fn a_spent_key_ends_the_run(rt: HostRuntime) -> Result<(), Fail> {
    let mut text = Vec::from_slice(rt.alloc(), b"witnesses 2\nnode 1 honest\nnode 2 mute\n")?;
    push_ticks(&mut text, 33, b"")?;
    assert!(rt; is_refused(&rt, rt.alloc(), 2, &text, "refused 36 KeySpent")?);
    Ok(())
}

/// Node 1's timer ticks 17 times, these lines come before the last time, and node 2 shows its log. Each time takes two leaves of
/// both nodes: node 1 signs its message and that it received the answer, node 2 that it received the message and the answer.
fn seventeen_ticks(alloc: Global, lines: &[u8]) -> Result<Vec<u8>, AllocError> {
    let mut text = Vec::from_slice(alloc, b"witnesses 1\nnode 1 honest\nnode 2 honest\n")?;
    push_ticks(&mut text, 16, lines)?;
    push_ticks(&mut text, 1, b"audit 2\n")?;
    Ok(text)
}

#[test]
fn two_leaves_are_signed_with_each_time(rt: HostRuntime) -> Result<(), Fail> {
    let text = seventeen_ticks(rt.alloc(), b"")?;
    assert!(rt; is_refused(&rt, rt.alloc(), 2, &text, "refused 36 KeySpent")?);
    Ok(())
}

#[test]
fn second_keys_sign_on(rt: HostRuntime) -> Result<(), Fail> {
    let text = seventeen_ticks(rt.alloc(), b"rekey 1\nrekey 2\n")?;
    let (answer, written) = outcome(&rt, rt.alloc(), Task::Run(2), text.as_slice());
    assert!(rt; answer == Ok(()));
    assert!(rt; written.as_slice() == b"witness 0\n1 trusted\n2 trusted\nequal\n".as_slice());
    Ok(())
}

#[test]
fn a_second_key_is_taken_once(rt: HostRuntime) -> Result<(), Fail> {
    let text = seventeen_ticks(rt.alloc(), b"rekey 1\nrekey 2\nrekey 1\n")?;
    assert!(rt; is_refused(&rt, rt.alloc(), 2, &text, "refused 31 WrongKey")?);
    Ok(())
}

/// A wrong node, a forking one and a mute one are found out by their second keys as by their first.
#[test]
fn second_keys_are_told_of(rt: HostRuntime) {
    let text = b"witnesses 1\nnode 1 fork\nnode 2 wrong\nnode 3 mute\n\
        rekey 1\nrekey 2\nrekey 3\ntimer 1 5\ntimer 2 7\naudit 2\n";
    let (answer, written) = outcome_of_run(&rt, rt.alloc(), 1, text);
    assert!(rt; answer == Ok(()));
    assert!(rt;
        written.as_slice() == b"witness 0\n1 exposed\n2 exposed\n3 suspected\nequal\n".as_slice()
    );
}

/// 64 nodes, each of which sends the next one a number and shows its log, and eight witnesses.
fn many_nodes(alloc: Global) -> Result<Vec<u8>, AllocError> {
    let mut text = Vec::from_slice(alloc, b"witnesses 8\n")?;
    for node in 1..65_u32 {
        let line = format!(in alloc; "node {node} honest\n")?;
        text.extend_from_slice(line.as_bytes())?;
    }
    for node in 1..65_u32 {
        let lines = format!(in alloc; "timer {node} 5\naudit {node}\n")?;
        text.extend_from_slice(lines.as_bytes())?;
    }
    Ok(text)
}

/// A witness that trusts each of them.
fn push_trusting(alloc: Global, witness: u32, text: &mut Vec<u8>) -> Result<(), AllocError> {
    let line = format!(in alloc; "witness {witness}\n")?;
    text.extend_from_slice(line.as_bytes())?;
    for node in 1..65_u32 {
        let line = format!(in alloc; "{node} trusted\n")?;
        text.extend_from_slice(line.as_bytes())?;
    }
    Ok(())
}

#[test]
fn many_nodes_and_all_witnesses(rt: HostRuntime) -> Result<(), Fail> {
    let alloc = rt.alloc();
    let text = many_nodes(alloc)?;
    let (answer, written) = outcome(&rt, alloc, Task::Run(8), text.as_slice());
    assert!(rt; answer == Ok(()));
    let mut wanted = Vec::new(alloc);
    for witness in 0..8_u32 {
        push_trusting(alloc, witness, &mut wanted)?;
    }
    wanted.extend_from_slice(b"equal\n")?;
    assert!(rt; written.as_slice() == wanted.as_slice());
    Ok(())
}
