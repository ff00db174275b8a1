//! Scenes of packs.

use crate::samples::{directory_of, first_store, second_store};
use crate::told::{Scene, Turn, play, say_digest, say_number, say_refusal, say_store};
use anyhow::Result;
use evidence_store::Evidence;
use ref_programs::Tally;
use std::alloc::Global;
use transfer::{Pack, Summary};

/// A store, and the summary of another one.
#[derive(Drop)]
struct Packing<S: Evidence<Tally>> {
    store: Box<S>,
    summary: Box<Summary>,
}

/// Writes the digest of the pack.
fn say_pack(rt: &HostRuntime, turn: Turn, pack: &Pack<Tally>) -> Result<bool> {
    say_digest(rt, turn, &pack.to_bytes(rt.alloc())?)
}

impl<S: Evidence<Tally>> Scene for Packing<S> {
    fn say(&self, rt: &HostRuntime, word: &str) -> Result<()> {
        say_store::<S>(rt, word, &self.store)
    }

    fn call(&mut self, rt: &HostRuntime, turn: Turn) -> Result<bool> {
        turn.begin(rt.alloc())?;
        let answer = transfer::pack::<Tally, S>(rt.alloc(), &self.store, &self.summary);
        turn.end(rt.alloc());
        match answer {
            Ok(pack) => say_pack(rt, turn, &pack),
            Err(_) => say_refusal(rt, turn, 99, "Memory"),
        }
    }
}

/// Returns the summary of a store that lists all its items.
fn summary_of<S: Evidence<Tally>>(alloc: Global, store: &S) -> Result<Box<Summary>> {
    Ok(Box::new(alloc, transfer::summary::<Tally, S>(alloc, store)?)?)
}

/// Plays `pack` of what another store does not have.
pub fn pack<S: Evidence<Tally>>(rt: &HostRuntime) -> Result<()> {
    let directory = directory_of(rt.alloc())?;
    let other: Box<S> = first_store(rt.alloc(), &directory)?;
    let mut scene: Packing<S> = Packing {
        store: second_store(rt.alloc(), &directory)?,
        summary: summary_of::<S>(rt.alloc(), &other)?,
    };
    play(rt, &mut scene)
}

/// A store, and the encoding of a pack.
#[derive(Drop)]
struct Applying<S: Evidence<Tally>> {
    store: Box<S>,
    text: Vec<u8>,
}

impl<S: Evidence<Tally>> Scene for Applying<S> {
    fn say(&self, rt: &HostRuntime, word: &str) -> Result<()> {
        say_store::<S>(rt, word, &self.store)
    }

    fn call(&mut self, rt: &HostRuntime, turn: Turn) -> Result<bool> {
        let pack: Pack<Tally> = Pack::from_bytes(
            rt.alloc(),
            &Tally,
            self.store.directory(),
            &self.text,
        )?;
        turn.begin(rt.alloc())?;
        let answer = transfer::apply::<Tally, S>(rt.alloc(), &mut self.store, &pack);
        turn.end(rt.alloc());
        match answer {
            Ok(new) => say_number(rt, turn, new),
            Err(_) => say_refusal(rt, turn, 99, "Memory"),
        }
    }
}

/// Returns the encoding of the pack that a store makes against a summary.
fn text_of_pack<S: Evidence<Tally>>(
    alloc: Global,
    store: &S,
    summary: &Summary,
) -> Result<Vec<u8>> {
    let pack = transfer::pack::<Tally, S>(alloc, store, summary)?;
    Ok(pack.to_bytes(alloc)?)
}

/// Plays `apply` of the pack that another store made for this one.
pub fn apply<S: Evidence<Tally>>(rt: &HostRuntime) -> Result<()> {
    let directory = directory_of(rt.alloc())?;
    let other: Box<S> = second_store(rt.alloc(), &directory)?;
    let store: Box<S> = first_store(rt.alloc(), &directory)?;
    let summary = summary_of::<S>(rt.alloc(), &store)?;
    let text = text_of_pack::<S>(rt.alloc(), &other, &summary)?;
    let mut scene: Applying<S> = Applying { store, text };
    play(rt, &mut scene)
}
