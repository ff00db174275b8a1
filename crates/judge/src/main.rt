//! `judge`: whom a proof of misbehaviour convicts.
//!
//!     judge PROGRAM DIRECTORY PROOF
//!
//! PROGRAM is `tally`, `relay` or `mailbox`, the program that the nodes were to follow. DIRECTORY and PROOF are files of bytes, as `bulwynef`
//! reads and writes them. The answer is the line `exposes ID`. It says what `bulwynef check` says of the same files, and stands on so few
//! crates that an auditor can prove all of them in some minutes.
//!
//! It ends with status 0 if the proof convicts a node. It ends with 1 after `refused NUMBER NAME` on standard error, and with 2 if words are
//! missing or not understood.
#![tactic(auto)]

mod judging;
mod programs;
mod refusal;

use authenticators::NodeId;
use programs::{Followed, judge_by};
use refusal::Refusal;
use std::io::{self, Write};
use std::process::ExitCode;
use std::{env, fs};

/// The words of the command line.
const USAGE: &str =
    "usage: judge PROGRAM DIRECTORY PROOF, where PROGRAM is tally, relay or mailbox";

/// Reads the words of the command line, without the program's name.
fn words_of(rt: &HostRuntime) -> io::Result<Vec<String>> {
    let words = env::args(rt)?.skip(1).collect(rt.alloc())?;
    Ok(words)
}

/// Writes which node is exposed.
fn write_answer(rt: &HostRuntime, node: NodeId) -> ExitCode {
    let mut writer = io::writer(rt);
    match writeln!(writer, "exposes {}", node.0) {
        Ok(()) => ExitCode::SUCCESS,
        Err(_) => refuse(rt, Refusal::WriteFailed),
    }
}

/// Reports the refusal on standard error. If that cannot be written, the exit status alone reports it.
fn refuse(rt: &HostRuntime, refusal: Refusal) -> ExitCode {
    let _ = eprintln!(rt; "refused {} {}", refusal.number(), refusal.name());
    ExitCode::FAILURE
}

/// Judges the proof in a file, under the directory in another one.
fn judge_files(
    rt: &HostRuntime,
    followed: Followed,
    directory: &str,
    proof: &str,
) -> Result<NodeId, Refusal> {
    let directory = read(rt, directory)?;
    let proof = read(rt, proof)?;
    judge_by(rt.alloc(), followed, &directory, &proof)
}

/// Reads a file whole.
fn read(rt: &HostRuntime, name: &str) -> Result<Vec<u8>, Refusal> {
    match fs::read(rt, name) {
        Ok(bytes) => Ok(bytes),
        Err(error) if error.kind() == io::ErrorKind::OutOfMemory => Err(Refusal::Memory),
        Err(_) => Err(Refusal::ReadFailed),
    }
}

fn main(rt: HostRuntime) -> ExitCode {
    let Ok(words) = words_of(&rt) else {
        return refuse(&rt, Refusal::Memory);
    };
    let [program, directory, proof] = words.as_slice() else {
        let _ = eprintln!(rt; "{USAGE}");
        return ExitCode::from(2);
    };
    let Some(followed) = Followed::of(program.as_bytes()) else {
        let _ = eprintln!(rt; "{USAGE}");
        return ExitCode::from(2);
    };
    match judge_files(&rt, followed, directory.as_str(), proof.as_str()) {
        Ok(node) => write_answer(&rt, node),
        Err(refusal) => refuse(&rt, refusal),
    }
}
