//! The order of things in a scene, and what it writes.

use crate::arming::{arm, disarm};
use anyhow::Result;
use authenticators::NodeId;
use evidence_store::Evidence;
use log_chain::Hash;
use outcome::Memory;
use ref_programs::Tally;
use sha2::{Digest, Sha256};
use std::alloc::Global;

/// Whether the call is made for the first time, or again.
#[derive(Clone, Copy)]
pub enum Turn {
    /// The first time. The growths are counted, and may be refused.
    First,
    /// Once more, after a refusal. Nothing is refused.
    Again,
}

impl Turn {
    /// Marks that the call begins. It is made just before the call.
    pub fn begin(self, alloc: Global) -> Result<(), Memory> {
        match self {
            Turn::First => arm(alloc),
            Turn::Again => Ok(()),
        }
    }

    /// Marks that the call has ended. It is made just after the call.
    pub fn end(self, alloc: Global) {
        match self {
            Turn::First => disarm(alloc),
            Turn::Again => {}
        }
    }

    /// Returns the word with which the line of the answer begins.
    pub fn word(self) -> &'static str {
        match self {
            Turn::First => "answer",
            Turn::Again => "again",
        }
    }
}

/// A call, with the state that it may change.
pub trait Scene {
    /// Writes the state, in lines that begin with the word.
    fn say(&self, rt: &HostRuntime, word: &str) -> Result<()>;

    /// Makes the call, and writes its answer. Returns whether the call was refused.
    fn call(&mut self, rt: &HostRuntime, turn: Turn) -> Result<bool>;
}

/// Plays the scene: the state, the call, the state, and if the call was refused, the call and the state once more.
pub fn play<T: Scene>(rt: &HostRuntime, scene: &mut T) -> Result<()> {
    scene.say(rt, "before")?;
    let is_refused = scene.call(rt, Turn::First)?;
    scene.say(rt, "after")?;
    if is_refused {
        scene.call(rt, Turn::Again)?;
        scene.say(rt, "end")?;
    }
    Ok(())
}

/// Returns the digest of the bytes.
pub fn digest(bytes: &[u8]) -> Hash {
    Hash(Sha256::digest(bytes))
}

/// Writes an answer that is a refusal. Returns true, since the call was refused.
pub fn say_refusal(rt: &HostRuntime, turn: Turn, number: u8, name: &str) -> Result<bool> {
    let word = turn.word();
    println!(rt; "{word} refused {number} {name}")?;
    Ok(true)
}

/// Writes an answer that is bytes, by their digest. Returns false, since the call was not refused.
pub fn say_digest(rt: &HostRuntime, turn: Turn, bytes: &[u8]) -> Result<bool> {
    let word = turn.word();
    let digest = digest(bytes);
    println!(rt; "{word} ok {digest}")?;
    Ok(false)
}

/// Writes an answer that is a number. Returns false, since the call was not refused.
pub fn say_number(rt: &HostRuntime, turn: Turn, number: u64) -> Result<bool> {
    let word = turn.word();
    println!(rt; "{word} ok {number}")?;
    Ok(false)
}

/// Writes what a store has: the digest of its export, how many items there are, and what it says of the nodes 1 and 2.
pub fn say_store<S: Evidence<Tally>>(rt: &HostRuntime, word: &str, store: &S) -> Result<()> {
    let digest = digest(&store.export()?);
    let count = store.count();
    let one = store.indication(NodeId(1))?;
    let two = store.indication(NodeId(2))?;
    println!(rt; "{word} {digest} {count} {one} {two}")?;
    Ok(())
}
