//! Scenes of stores that take, join, read and prove.

use crate::samples::{directory_of, first_store, receiver, second_store};
use crate::told::{Scene, Turn, play, say_digest, say_number, say_refusal, say_store};
use anyhow::{Result, bail};
use authenticators::NodeId;
use evidence_item::{Checked, Item, check_item};
use evidence_store::Evidence;
use proofs::Proof;
use ref_programs::Tally;

/// A store, and an item that it does not have.
#[derive(Drop)]
struct Taking<S: Evidence<Tally>> {
    store: Box<S>,
    item: Box<Item>,
}

/// Writes that the item was refused. It fails if another item was given back.
fn say_given_back(
    rt: &HostRuntime,
    turn: Turn,
    given: &Checked<Tally>,
    item: &Item,
) -> Result<bool> {
    if *given.item() != *item {
        bail!("another item is given back");
    }
    say_refusal(rt, turn, 99, "Memory")
}

impl<S: Evidence<Tally>> Scene for Taking<S> {
    fn say(&self, rt: &HostRuntime, word: &str) -> Result<()> {
        say_store::<S>(rt, word, &self.store)
    }

    fn call(&mut self, rt: &HostRuntime, turn: Turn) -> Result<bool> {
        let item = self.item.try_clone(rt.alloc())?;
        let checked = check_item(rt.alloc(), &Tally, self.store.directory(), item)?;
        turn.begin(rt.alloc())?;
        let answer = self.store.take(checked);
        turn.end(rt.alloc());
        match answer {
            Ok(new) => say_number(rt, turn, u64::from(new)),
            Err(refused) => say_given_back(rt, turn, &refused.0, &self.item),
        }
    }
}

/// Plays `take` of a segment that exposes its node.
pub fn take<S: Evidence<Tally>>(rt: &HostRuntime) -> Result<()> {
    let directory = directory_of(rt.alloc())?;
    let mut scene: Taking<S> = Taking {
        store: first_store(rt.alloc(), &directory)?,
        item: receiver(rt.alloc(), &directory)?,
    };
    play(rt, &mut scene)
}

/// Two stores.
#[derive(Drop)]
struct Merging<S: Evidence<Tally>> {
    store: Box<S>,
    other: Box<S>,
}

impl<S: Evidence<Tally>> Scene for Merging<S> {
    fn say(&self, rt: &HostRuntime, word: &str) -> Result<()> {
        say_store::<S>(rt, word, &self.store)
    }

    fn call(&mut self, rt: &HostRuntime, turn: Turn) -> Result<bool> {
        if !self.store.shares_directory(&self.other) {
            bail!("two directories");
        }
        turn.begin(rt.alloc())?;
        let answer = self.store.merge(&self.other);
        turn.end(rt.alloc());
        match answer {
            Ok(new) => say_number(rt, turn, new),
            Err(_) => say_refusal(rt, turn, 99, "Memory"),
        }
    }
}

/// Plays `merge` of stores that have one item in common.
pub fn merge<S: Evidence<Tally>>(rt: &HostRuntime) -> Result<()> {
    let directory = directory_of(rt.alloc())?;
    let mut scene: Merging<S> = Merging {
        store: first_store(rt.alloc(), &directory)?,
        other: second_store(rt.alloc(), &directory)?,
    };
    play(rt, &mut scene)
}

/// A store, and the export of another one.
#[derive(Drop)]
struct Importing<S: Evidence<Tally>> {
    store: Box<S>,
    text: Vec<u8>,
}

impl<S: Evidence<Tally>> Scene for Importing<S> {
    fn say(&self, rt: &HostRuntime, word: &str) -> Result<()> {
        say_store::<S>(rt, word, &self.store)
    }

    fn call(&mut self, rt: &HostRuntime, turn: Turn) -> Result<bool> {
        turn.begin(rt.alloc())?;
        let answer = self.store.import(&Tally, &self.text);
        turn.end(rt.alloc());
        match answer {
            Ok(new) => say_number(rt, turn, new),
            Err(fault) => say_refusal(rt, turn, fault.cause.number(), fault.cause.name()),
        }
    }
}

/// Plays `import` of an export that has one item in common with the store.
pub fn import<S: Evidence<Tally>>(rt: &HostRuntime) -> Result<()> {
    let directory = directory_of(rt.alloc())?;
    let other: Box<S> = second_store(rt.alloc(), &directory)?;
    let mut scene: Importing<S> = Importing {
        store: first_store(rt.alloc(), &directory)?,
        text: other.export()?,
    };
    play(rt, &mut scene)
}

/// A store that exposes node 2.
#[derive(Drop)]
struct Proving<S: Evidence<Tally>> {
    store: Box<S>,
}

/// Writes the digest of the proof.
fn say_proof(rt: &HostRuntime, turn: Turn, proof: &Proof) -> Result<bool> {
    say_digest(rt, turn, &proof.encode(rt.alloc())?)
}

impl<S: Evidence<Tally>> Scene for Proving<S> {
    fn say(&self, rt: &HostRuntime, word: &str) -> Result<()> {
        say_store::<S>(rt, word, &self.store)
    }

    fn call(&mut self, rt: &HostRuntime, turn: Turn) -> Result<bool> {
        turn.begin(rt.alloc())?;
        let answer = self.store.proof(NodeId(2));
        turn.end(rt.alloc());
        match answer {
            Ok(Some(proof)) => say_proof(rt, turn, &proof),
            Ok(None) => bail!("no proof"),
            Err(fault) => say_refusal(rt, turn, fault.number(), fault.name()),
        }
    }
}

/// Plays `proof`. The proof is a statement, and a segment with a quote.
pub fn proof<S: Evidence<Tally>>(rt: &HostRuntime) -> Result<()> {
    let directory = directory_of(rt.alloc())?;
    let mut scene: Proving<S> = Proving {
        store: second_store(rt.alloc(), &directory)?,
    };
    play(rt, &mut scene)
}
