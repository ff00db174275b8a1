//! `bulwynef` reports what evidence in files says of nodes, for operators, auditors and scripts.
//!
//! - `status` writes a line for each node, or for each node of a shard: `ID trusted`, `ID suspected` or `ID exposed`.
//! - `merge` writes one store with the items of all stores.
//! - `prove` writes a proof that convicts a node.
//! - `check` writes whom a proof convicts. The proof may be in a bundle.
//! - `explain` writes what stores, a proof or a directory say, for a person to read: sentences, or a page.
//! - `bundle` writes a proof to hand over, in one file with its directory.
//! - `split` writes the parts of stores, each as a store. Parts are by nodes, with or without quotes in place of segments.
//! - `show` writes what a file is and what is in it.
//! - `play` makes a folder with what a scenario leaves: a directory, and a store for each witness.
//!
//! A verdict is given under the program that was named ([`programs`]). If none was named, no verdict is given. Each command is an engine of the
//! crate `operating`, of the module [`explaining_files`] or, for `bundle`, of the module [`handing`]. The engine carries the command's theorem.
//! [`answering`] chooses the engine of a question. If `check` is given a bundle, [`bundled`] judges it. Here stands what the engines read and
//! write: files, whose bytes no contract can know.
#![tactic(auto)]

mod answering;
mod bundled;
mod command_line;
mod ending;
mod explaining_files;
mod folder;
mod handing;
mod noting;
mod opening;
mod placing;
mod programs;
mod progress;
mod running;
mod splitting;
mod telling;
mod unbundled;
mod words;
mod writing;

use ending::{Done, ended};
use std::process::ExitCode;
use std::sync::Wait;
use std::thread::Threads;
use unbundled::Refused;
use words::{Asked, Request, Task, read_words};

/// Does what was asked for.
fn done<H: Threads + Wait + Sync>(
    rt: &HostRuntime,
    threads: &H,
    request: &Request,
) -> Result<Done, Refused> {
    let ending = match request.task {
        Task::Check(style) => return bundled::check(rt, threads, request, style),
        Task::Ask(query) => running::ask(rt, threads, request, query, None)?,
        Task::Bundle => bundled::bundle(rt, request)?,
        Task::Split(dealing) => running::split(rt, threads, request, dealing)?,
        Task::Play => running::play(rt, threads, request)?,
    };
    Ok(Done::Engine(ending))
}

/// Runs the command that the words of the command line ask for. It ends with one of these:
///
/// - 0, if the command was done.
/// - 1, after a refusal.
/// - 2, if words are missing or not understood.
/// - 3, if somebody is exposed.
/// - 4, if there is no proof.
/// - 5, if a bundle has another program or directory than those named.
fn main(rt: HostRuntime) -> ExitCode {
    let words = match words::words_of(&rt) {
        Ok(words) => words,
        Err(code) => return code,
    };
    match read_words(&rt, words.as_slice()) {
        Asked::Run(request) => ended(&rt, &request, done(&rt, &rt, &request)),
        Asked::Refused => ending::out_of_memory(&rt),
        Asked::Other => ExitCode::from(2),
    }
}
