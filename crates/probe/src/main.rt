//! Plays scripts of calls, whose lines have the answers that must come.
//!
//! `probe FILE..` writes of each script how many calls went as it says, or its first line that did not. It ends with 1 if there was such a line.
//! `probe growths FILE..` has each growth of memory of each call refused in turn, if the library that refuses growths is loaded
//! (`checks/calls/run.py`).
//!
//! The words of scripts are those of the crate `probe_words`. The verbs are those of `probe_keys` and `probe_nodes`; `checks/calls/README.md` lists them.
#![tactic(auto)]

use probe_nodes::Arena;
use probe_words::{Played, play};
use std::io;
use std::process::ExitCode;

/// Writes how far the script went. Returns whether it went to its end.
fn tell(rt: &HostRuntime, name: &str, played: &Played) -> io::Result<bool> {
    if let Some(fault) = &played.fault {
        let line = fault.line;
        let text = fault.text.as_str();
        println!(rt; "{name}, line {line}: {text}")?;
        return Ok(false);
    }
    let calls = played.calls;
    let compared = played.compared;
    let growths = played.growths;
    println!(rt; "{name}: {calls} calls, {compared} answers, {growths} growths refused")?;
    Ok(true)
}

/// Plays the script of a file. Returns whether it went to its end.
fn is_played(rt: &HostRuntime, name: &str, refuses: bool) -> io::Result<bool> {
    let script = std::fs::read_to_string(rt, name)?;
    let mut arena = Arena::new(rt.alloc());
    match play(rt.alloc(), &mut arena, script.as_str(), refuses) {
        Ok(played) => tell(rt, name, &played),
        Err(fault) => {
            println!(rt; "{name}: {fault}")?;
            Ok(false)
        }
    }
}

fn main(rt: HostRuntime) -> io::Result<ExitCode> {
    let mut refuses = false;
    let mut is_right = true;
    for word in std::env::args(&rt)?.skip(1) {
        if word.as_str() == "growths" {
            refuses = true;
        } else if !is_played(&rt, word.as_str(), refuses)? {
            is_right = false;
        }
    }
    Ok(if is_right {
        ExitCode::SUCCESS
    } else {
        ExitCode::FAILURE
    })
}
