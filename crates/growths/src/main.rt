//! Calls whose growths of memory `checks/growths/run.py` refuses, one after the other. Each call has a scene of its own.
//!
//! The first word of the command line is the scene's name. The word `all` plays every scene, each after a line `== NAME`. A scene prepares what
//! the call needs, and writes the state (`before`). It makes the call, and marks the growths of that call alone by two growths around it
//! ([`arming`]). Then it writes what the call returned (`answer`), and the state (`after`). If the call was refused memory, the scene makes it
//! once more, with nothing refused, and writes its answer and the state too (`again`, `end`).
//!
//! [`told`] has that order of things, and [`samples`] has nodes and items. The scenes stand in [`keys`], [`nodes`], [`checking`], [`stores`],
//! [`feeding`], [`transfers`], [`worlds`], [`workers`] and [`engines`].
#![tactic(auto)]

mod arming;
mod checking;
mod engines;
mod feeding;
mod keys;
mod nodes;
mod samples;
mod stores;
mod told;
mod transfers;
mod workers;
mod worlds;

use anyhow::{Result, bail};
use engines::Command;
use evidence_store::{Evidence, IndexedStore, PlainStore};
use ref_programs::Tally;
use std::thread::Threads;

/// The scenes without a store of their own.
const SCENES: [&str; 17] = [
    "directory",
    "sign",
    "receive",
    "receive_again",
    "check_item_1",
    "check_item_2",
    "check_proof_1",
    "check_proof_2",
    "check_proof_3",
    "check_all_1",
    "check_all_2",
    "check_again_1",
    "check_again_2",
    "engine_status",
    "engine_merge",
    "engine_prove",
    "engine_check",
];

/// The scenes of stores, each for two kinds of store.
const STORE_SCENES: [&str; 9] = [
    "take", "merge", "import", "feed", "proof", "pack", "apply", "run_take", "run",
];

/// Plays a scene of a check. Returns whether there is one with this name.
fn play_check<H: Threads + Sync>(rt: &HostRuntime, threads: &H, name: &str) -> Result<bool> {
    match name {
        "check_item_1" => checking::conforming_item(rt)?,
        "check_item_2" => checking::deviating_item(rt)?,
        "check_proof_1" => checking::two_statements(rt)?,
        "check_proof_2" => checking::statement_and_segment(rt)?,
        "check_proof_3" => checking::nonconforming(rt)?,
        "check_all_1" => workers::all(rt, threads, 1)?,
        "check_all_2" => workers::all(rt, threads, 2)?,
        "check_again_1" => workers::again(rt, threads, 1)?,
        "check_again_2" => workers::again(rt, threads, 2)?,
        _ => return Ok(false),
    }
    Ok(true)
}

/// Plays a scene without a store of its own. Returns whether there is one with this name.
fn play_plain<H: Threads + Sync>(rt: &HostRuntime, threads: &H, name: &str) -> Result<bool> {
    match name {
        "directory" => keys::directory(rt)?,
        "sign" => keys::sign(rt)?,
        "receive" => nodes::receive(rt)?,
        "receive_again" => nodes::receive_again(rt)?,
        "engine_status" => engines::play_command(rt, Command::Status)?,
        "engine_merge" => engines::play_command(rt, Command::Merge)?,
        "engine_prove" => engines::play_command(rt, Command::Prove)?,
        "engine_check" => engines::play_command(rt, Command::Check)?,
        _ => return play_check(rt, threads, name),
    }
    Ok(true)
}

/// Plays a scene of stores, of one kind. Returns whether there is one with this name.
fn play_store<S: Evidence<Tally>>(rt: &HostRuntime, name: &str) -> Result<bool> {
    match name {
        "take" => stores::take::<S>(rt)?,
        "merge" => stores::merge::<S>(rt)?,
        "import" => stores::import::<S>(rt)?,
        "feed" => feeding::feed::<S>(rt)?,
        "proof" => stores::proof::<S>(rt)?,
        "pack" => transfers::pack::<S>(rt)?,
        "apply" => transfers::apply::<S>(rt)?,
        "run_take" => worlds::take::<S>(rt)?,
        "run" => worlds::run::<S>(rt)?,
        _ => return Ok(false),
    }
    Ok(true)
}

/// Plays the scene with this name.
fn play<H: Threads + Sync>(rt: &HostRuntime, threads: &H, name: &str) -> Result<()> {
    let is_played = if let Some(name) = name.strip_suffix("_plain") {
        play_store::<PlainStore<Tally>>(rt, name)?
    } else if let Some(name) = name.strip_suffix("_indexed") {
        play_store::<IndexedStore<Tally>>(rt, name)?
    } else {
        play_plain(rt, threads, name)?
    };
    if !is_played {
        bail!("no such scene");
    }
    Ok(())
}

/// Plays every scene.
fn play_all<H: Threads + Sync>(rt: &HostRuntime, threads: &H) -> Result<()> {
    for name in SCENES {
        println!(rt; "== {name}")?;
        play_plain(rt, threads, name)?;
    }
    for name in STORE_SCENES {
        println!(rt; "== {name}_plain")?;
        play_store::<PlainStore<Tally>>(rt, name)?;
        println!(rt; "== {name}_indexed")?;
        play_store::<IndexedStore<Tally>>(rt, name)?;
    }
    Ok(())
}

fn main(rt: HostRuntime) -> Result<()> {
    let words: Vec<String> = std::env::args(&rt)?.collect(rt.alloc())?;
    match words.get(1).map(|word| word.as_str()) {
        Some("all") => play_all(&rt, &rt),
        Some(name) => play(&rt, &rt, name),
        None => bail!("a scene's name is wanted"),
    }
}
