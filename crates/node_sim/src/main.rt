//! `node_sim` reports what a set of evidence says of the nodes of a directory, and what witnesses make of a scenario.
//!
//! The program reads standard input. This is lines of hexadecimal digits, a directory and then stores or a proof; or it is a scenario.
//!
//! - `status` writes a line for each node: `ID trusted`, `ID suspected` or `ID exposed`.
//! - `merge` writes the store of the items of all stores.
//! - `prove NODE` writes a proof that convicts the node, or `none`.
//! - `check` writes whom a proof convicts: `exposes ID`.
//! - `run` plays a scenario, and writes what each of its witnesses says of each node.
//!
//! Each of them is an engine of the crate `commands`, which carries its theorem. The crate `command_words` reads the words, and reports a
//! refusal. This crate chooses the program that the nodes run: Tally, or Relay with `--relay`.
#![tactic(auto)]

ghost use Rattle.std.specs.Prelude.{◌≡◌, false, true};
ghost use Rattle.commands.specs.Answers.{IsAnswer};
ghost use Rattle.commands.specs.Engines.{HasRoom, Ran};
ghost use Rattle.ref_programs.specs.RelayMeaning.{relay};
ghost use Rattle.ref_programs.specs.TallyMeaning.{tally};

use command_words::{Asked, Flag, Request, ended, read_words};
use commands::device::{CountedReader, CountedWriter, Sink, Source};
use commands::fault::Fault;
use ref_programs::{Relay, Tally};
use std::alloc::Global;
use std::io;
use std::process::ExitCode;
use std::sync::Wait;
use std::thread::Threads;

/// Runs the command that the words ask for. It ends with 0 if the command was done, with 1 after `refused NUMBER NAME`, and with 2 after clap's
/// text.
fn main(rt: HostRuntime) -> ExitCode {
    let flag = Flag {
        name: "relay",
        help: "The nodes run the program Relay, in place of Tally",
    };
    let mut reader = CountedReader::new(rt.stdin());
    let mut writer = CountedWriter::new(io::writer(&rt));
    match read_words(&rt, "node_sim", Some(flag)) {
        Asked::Run(request) => ended(&rt, run(&rt, rt.alloc(), request, &mut reader, &mut writer)),
        Asked::Refused(fault) => ended(&rt, Err(fault)),
        Asked::Other => ExitCode::from(2),
    }
}

/// Runs the command, for nodes that run Relay if the flag was given, and else Tally.
fn run<H: Threads + Wait + Sync, R: Source, W: Sink>(
    rt: &H,
    alloc: Global,
    request: Request,
    reader: &mut R,
    writer: &mut W,
) -> Result<(), Fault>
    requires { HasRoom (R.seen reader.old) (W.seen writer.old) }
    ensures relay { request.flagged ≡ true → Ran (IsAnswer relay request.task) result (R.seen reader.old) (R.seen reader.new) W.seen writer.old writer.new }
    ensures tally { request.flagged ≡ false → Ran (IsAnswer tally request.task) result (R.seen reader.old) (R.seen reader.new) W.seen writer.old writer.new }
{
    if request.flagged {
        request.task.run(rt, alloc, &Relay, reader, writer)
    } else {
        request.task.run(rt, alloc, &Tally, reader, writer)
    }
}
