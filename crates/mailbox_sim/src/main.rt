//! `mailbox_sim` reports what a set of evidence says of nodes that run the mail relay `mailbox`, and what witnesses make of a scenario of them.
//!
//! It has the commands of `node_sim`: `status`, `merge`, `prove NODE`, `check` and `run`. Each of these is an engine of the crate `commands`,
//! which carries its theorem. A scenario may have the wishes of users in words. The engine of `run` reads moments in their place.
#![tactic(auto)]

mod wishes;

ghost use Rattle.commands.specs.Answers.{IsAnswer};
ghost use Rattle.commands.specs.Engines.{HasRoom, Ran};
ghost use Rattle.mailbox.specs.MailboxMeaning.{mailbox};

use command_words::{Asked, ended, read_words};
use commands::device::{CountedReader, CountedWriter, Sink, Source};
use commands::fault::Fault;
use commands::input::{LONGEST_INPUT, MOST_READS, read_input};
use commands::task::Task;
use mailbox::Mailbox;
use std::alloc::Global;
use std::io;
use std::process::ExitCode;
use std::sync::Wait;
use std::thread::Threads;
use wishes::in_moments;

/// Runs the command that the words ask for. It ends with 0 if the command was done, with 1 after `refused NUMBER NAME`, and with 2 after clap's
/// text.
fn main(rt: HostRuntime) -> ExitCode {
    let mut reader = CountedReader::new(rt.stdin());
    let mut writer = CountedWriter::new(io::writer(&rt));
    match read_words(&rt, "mailbox_sim", None) {
        Asked::Run(request) => ended(
            &rt,
            answer(&rt, rt.alloc(), request.task, &mut reader, &mut writer),
        ),
        Asked::Refused(fault) => ended(&rt, Err(fault)),
        Asked::Other => ExitCode::from(2),
    }
}

/// Runs the command. If it plays a scenario, moments first take the place of wishes in words.
fn answer<H: Threads + Wait + Sync, R: Source, W: Sink>(
    rt: &H,
    alloc: Global,
    task: Task,
    reader: &mut R,
    writer: &mut W,
) -> Result<(), Fault>
    requires { HasRoom (R.seen reader.old) (W.seen writer.old) }
{
    if !matches!(task, Task::Run(_)) {
        return run(rt, alloc, task, reader, writer);
    }
    let text = read_input(alloc, reader, LONGEST_INPUT, MOST_READS)?;
    let scenario = in_moments(alloc, &text)?;
    drop(text);
    let mut moments = CountedReader::new(scenario.as_slice());
    run(rt, alloc, task, &mut moments, writer)
}

/// Runs the command for nodes that run the mail relay.
fn run<H: Threads + Wait + Sync, R: Source, W: Sink>(
    rt: &H,
    alloc: Global,
    task: Task,
    reader: &mut R,
    writer: &mut W,
) -> Result<(), Fault>
    requires { HasRoom (R.seen reader.old) (W.seen writer.old) }
    ensures { Ran (IsAnswer mailbox task) result (R.seen reader.old) (R.seen reader.new) W.seen writer.old writer.new }
{
    task.run(rt, alloc, &Mailbox, reader, writer)
}
