//! Scenes of a directory that is read, and of a key that signs.

use crate::samples::{ENTROPY, directory_of, key_of};
use crate::told::{Scene, Turn, play, say_digest, say_refusal};
use anyhow::Result;
use authenticators::{Directory, NodeId};
use lms_sign::SecretKey;

/// The encoding of a directory.
#[derive(Drop)]
struct Reading {
    text: Vec<u8>,
}

impl Scene for Reading {
    fn say(&self, rt: &HostRuntime, word: &str) -> Result<()> {
        println!(rt; "{word} -")?;
        Ok(())
    }

    fn call(&mut self, rt: &HostRuntime, turn: Turn) -> Result<bool> {
        turn.begin(rt.alloc())?;
        let answer = Directory::from_bytes(rt.alloc(), &self.text);
        turn.end(rt.alloc());
        match answer {
            Ok(directory) => say_digest(rt, turn, &directory.to_bytes()?),
            Err(fault) => say_refusal(rt, turn, fault.number(), fault.name()),
        }
    }
}

/// Plays `Directory::from_bytes` of a directory of two nodes. One of them has two keys.
pub fn directory(rt: &HostRuntime) -> Result<()> {
    let mut directory = directory_of(rt.alloc())?;
    directory.add_key(NodeId(1), key_of(rt.alloc(), 3)?.public_key())?;
    let mut scene = Reading {
        text: directory.to_bytes()?,
    };
    play(rt, &mut scene)
}

/// A key.
#[derive(Drop)]
struct Signing {
    key: Box<SecretKey>,
}

impl Scene for Signing {
    fn say(&self, rt: &HostRuntime, word: &str) -> Result<()> {
        let left = self.key.remaining();
        println!(rt; "{word} {left}")?;
        Ok(())
    }

    fn call(&mut self, rt: &HostRuntime, turn: Turn) -> Result<bool> {
        turn.begin(rt.alloc())?;
        let answer = self.key.sign(rt.alloc(), b"text", ENTROPY);
        turn.end(rt.alloc());
        match answer {
            Ok(sig) => say_digest(rt, turn, &sig),
            Err(fault) => say_refusal(rt, turn, fault.number(), fault.name()),
        }
    }
}

/// Plays `SecretKey::sign`.
pub fn sign(rt: &HostRuntime) -> Result<()> {
    let mut scene = Signing {
        key: key_of(rt.alloc(), 1)?,
    };
    play(rt, &mut scene)
}
