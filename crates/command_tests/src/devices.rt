//! Devices that fail, under each of the commands.

use crate::testing::{Narrow, Scripted, no_statements, outcome, statements, two_statements};
use authenticators::NodeId;
use commands::device::{CountedReader, CountedWriter};
use commands::fault::Fault;
use commands::task::Task;
use ref_programs::Tally;
use std::alloc::Global;
use std::io;
use std::sync::Wait;
use std::test::Fail;
use std::thread::Threads;

/// A scenario of one node and one witness, in which nothing happens.
fn scenario() -> &'static [u8] {
    b"witnesses 1\nnode 1 honest\n"
}

/// Whether the command tells that the read of this number failed, of one byte each, and writes nothing.
fn tells_read<H: Threads + Wait + Sync>(
    rt: &H,
    alloc: Global,
    task: Task,
    input: &'static [u8],
    number: u64,
) -> bool {
    let reader = Scripted::new(input, 1, number, io::ErrorKind::TimedOut);
    let (answer, written) = outcome(rt, alloc, task, reader);
    answer == Err(Fault::ReadFailed) && written.is_empty()
}

/// Whether the command ends well and writes this where the read of this number, of one byte each, is interrupted.
fn reads_on<H: Threads + Wait + Sync>(
    rt: &H,
    alloc: Global,
    task: Task,
    input: &'static [u8],
    number: u64,
    text: &[u8],
) -> bool {
    let reader = Scripted::new(input, 1, number, io::ErrorKind::Interrupted);
    let (answer, written) = outcome(rt, alloc, task, reader);
    answer == Ok(()) && written.as_slice() == text
}

/// Whether the command tells that the write of this number failed, of one byte each.
fn tells_write<H: Threads + Wait + Sync>(
    rt: &H,
    alloc: Global,
    task: Task,
    input: &'static [u8],
    number: u64,
) -> bool {
    let mut reader = CountedReader::new(input);
    let mut writer = CountedWriter::new(Narrow {
        turn: 0,
        fails: number,
    });
    let answer = task.run(rt, alloc, &Tally, &mut reader, &mut writer);
    answer == Err(Fault::WriteFailed)
}

/// The same of `check`, for a proof.
fn check_tells_write<H: Threads + Wait + Sync>(
    rt: &H,
    alloc: Global,
    number: u64,
) -> Result<bool, Fail> {
    let (_, first, second) = statements();
    let input = two_statements(alloc, first, second)?;
    let mut reader = CountedReader::new(input.as_slice());
    let mut writer = CountedWriter::new(Narrow {
        turn: 0,
        fails: number,
    });
    let answer = Task::Check.run(rt, alloc, &Tally, &mut reader, &mut writer);
    Ok(answer == Err(Fault::WriteFailed))
}

/// Whether `check` tells whom a proof convicts where the read of this number, of one byte each, is interrupted.
fn check_reads_on<H: Threads + Wait + Sync>(
    rt: &H,
    alloc: Global,
    number: u64,
) -> Result<bool, Fail> {
    let (_, first, second) = statements();
    let input = two_statements(alloc, first, second)?;
    let reader = Scripted::new(input.as_slice(), 1, number, io::ErrorKind::Interrupted);
    let (answer, written) = outcome(rt, alloc, Task::Check, reader);
    Ok(answer == Ok(()) && written.as_slice() == b"exposes 7\n".as_slice())
}

#[test]
fn each_read_may_fail(rt: HostRuntime) {
    let input = no_statements();
    let reads = input.len() as u64 + 1;
    for number in 1..reads + 1 {
        assert!(rt; tells_read(&rt, rt.alloc(), Task::Status, input, number));
        assert!(rt; tells_read(&rt, rt.alloc(), Task::Merge, input, number));
        assert!(rt; tells_read(&rt, rt.alloc(), Task::Prove(NodeId(1)), input, number));
        assert!(rt; tells_read(&rt, rt.alloc(), Task::Check, input, number));
    }
}

#[test]
fn each_read_may_be_interrupted(rt: HostRuntime) {
    let input = no_statements();
    let reads = input.len() as u64 + 2;
    for number in 1..reads + 1 {
        assert!(rt;
            reads_on(
                &rt,
                rt.alloc(),
                Task::Status,
                input,
                number,
                b"1 trusted\n2 trusted\n"
            )
        );
        assert!(rt;
            reads_on(
                &rt,
                rt.alloc(),
                Task::Merge,
                input,
                number,
                b"505253544f5245320000000000000000\n"
            )
        );
        assert!(rt;
            reads_on(
                &rt,
                rt.alloc(),
                Task::Prove(NodeId(1)),
                input,
                number,
                b"none\n"
            )
        );
    }
}

/// Of the 5,528 reads of a proof every ninety-seventh.
#[test]
fn reads_of_check_may_be_interrupted(rt: HostRuntime) -> Result<(), Fail> {
    for step in 0..57u64 {
        assert!(rt; check_reads_on(&rt, rt.alloc(), 1 + 97 * step)?);
    }
    Ok(())
}

#[test]
fn each_write_may_fail(rt: HostRuntime) {
    let input = no_statements();
    for number in 1..34 {
        assert!(rt; tells_write(&rt, rt.alloc(), Task::Status, input, number) == (number <= 20));
        assert!(rt; tells_write(&rt, rt.alloc(), Task::Merge, input, number));
        assert!(rt;
            tells_write(&rt, rt.alloc(), Task::Prove(NodeId(1)), input, number) == (number <= 5)
        );
    }
}

#[test]
fn each_write_of_check_may_fail(rt: HostRuntime) -> Result<(), Fail> {
    for number in 1..12 {
        assert!(rt; check_tells_write(&rt, rt.alloc(), number)? == (number <= 10));
    }
    Ok(())
}

#[test]
fn each_read_of_run_may_fail_or_be_interrupted(rt: HostRuntime) {
    let input = scenario();
    let reads = input.len() as u64 + 1;
    for number in 1..reads + 1 {
        assert!(rt; tells_read(&rt, rt.alloc(), Task::Run(1), input, number));
        assert!(rt;
            reads_on(
                &rt,
                rt.alloc(),
                Task::Run(1),
                input,
                number,
                b"witness 0\n1 trusted\nequal\n"
            )
        );
    }
}

#[test]
fn each_write_of_run_may_fail(rt: HostRuntime) {
    for number in 1..28 {
        assert!(rt;
            tells_write(&rt, rt.alloc(), Task::Run(1), scenario(), number) == (number <= 26)
        );
    }
}
