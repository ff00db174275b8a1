//! Scenes of items and proofs that are checked.

use crate::samples::{directory_of, receiver, statement, twice};
use crate::told::{Scene, Turn, digest, play, say_digest, say_number, say_refusal};
use anyhow::Result;
use authenticators::Directory;
use evidence_item::{Checked, Item, check_item};
use proofs::{Proof, check_proof};
use ref_programs::Tally;

/// An item under its directory.
#[derive(Drop)]
struct Checking {
    directory: Box<Directory>,
    item: Box<Item>,
}

/// Writes the digest of the item, with what checking found of it.
fn say_checked(rt: &HostRuntime, turn: Turn, checked: &Checked<Tally>) -> Result<bool> {
    let text = format!(in rt.alloc(); "{checked:?}")?;
    say_digest(rt, turn, text.as_bytes())
}

impl Scene for Checking {
    fn say(&self, rt: &HostRuntime, word: &str) -> Result<()> {
        println!(rt; "{word} -")?;
        Ok(())
    }

    fn call(&mut self, rt: &HostRuntime, turn: Turn) -> Result<bool> {
        let item = self.item.try_clone(rt.alloc())?;
        turn.begin(rt.alloc())?;
        let answer = check_item(rt.alloc(), &Tally, &self.directory, item);
        turn.end(rt.alloc());
        match answer {
            Ok(checked) => say_checked(rt, turn, &checked),
            Err(fault) => say_refusal(rt, turn, fault.number(), fault.name()),
        }
    }
}

/// Plays `check_item` of a segment with a quote, which conforms.
pub fn conforming_item(rt: &HostRuntime) -> Result<()> {
    let directory = directory_of(rt.alloc())?;
    let item = receiver(rt.alloc(), &directory)?;
    let mut scene = Checking { directory, item };
    play(rt, &mut scene)
}

/// Plays `check_item` of a segment with two quotes, which does not conform.
pub fn deviating_item(rt: &HostRuntime) -> Result<()> {
    let directory = directory_of(rt.alloc())?;
    let item = twice(rt.alloc(), &directory)?;
    let mut scene = Checking { directory, item };
    play(rt, &mut scene)
}

/// A proof under its directory.
#[derive(Drop)]
struct Convicting {
    directory: Box<Directory>,
    proof: Box<Proof>,
}

impl Scene for Convicting {
    fn say(&self, rt: &HostRuntime, word: &str) -> Result<()> {
        let digest = digest(&self.proof.encode(rt.alloc())?);
        println!(rt; "{word} {digest}")?;
        Ok(())
    }

    fn call(&mut self, rt: &HostRuntime, turn: Turn) -> Result<bool> {
        turn.begin(rt.alloc())?;
        let answer = check_proof(rt.alloc(), &Tally, &self.directory, &self.proof);
        turn.end(rt.alloc());
        match answer {
            Ok(node) => say_number(rt, turn, u64::from(node.0)),
            Err(fault) => say_refusal(rt, turn, fault.number(), fault.name()),
        }
    }
}

fn convict(rt: &HostRuntime, directory: Box<Directory>, proof: Proof) -> Result<()> {
    let proof = Box::new(rt.alloc(), proof)?;
    let mut scene = Convicting { directory, proof };
    play(rt, &mut scene)
}

/// Plays `check_proof` of two statements. That takes no memory.
pub fn two_statements(rt: &HostRuntime) -> Result<()> {
    let directory = directory_of(rt.alloc())?;
    let first = Box::into_inner(statement(rt.alloc(), 1)?);
    let second = Box::into_inner(statement(rt.alloc(), 2)?);
    convict(rt, directory, Proof::two_auths(first, second)?)
}

/// Plays `check_proof` of a statement and a segment with a quote, which contradict each other.
pub fn statement_and_segment(rt: &HostRuntime) -> Result<()> {
    let directory = directory_of(rt.alloc())?;
    let first = Box::into_inner(statement(rt.alloc(), 1)?);
    let second = Box::into_inner(receiver(rt.alloc(), &directory)?);
    convict(rt, directory, Proof::auth_segment(first, second)?)
}

/// Plays `check_proof` of a segment with quotes, which does not conform.
pub fn nonconforming(rt: &HostRuntime) -> Result<()> {
    let directory = directory_of(rt.alloc())?;
    let segment = Box::into_inner(twice(rt.alloc(), &directory)?);
    convict(rt, directory, Proof::nonconforming(segment)?)
}
