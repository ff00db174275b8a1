//! Scenes of the engines of `node_sim`. The engine of `run` has none.

use crate::samples::{directory_of, first_store, second_store};
use crate::told::{Scene, Turn, digest, play, say_refusal};
use anyhow::{Result, bail};
use authenticators::{Directory, NodeId};
use commands::device::{CountedReader, CountedWriter};
use commands::fault::Fault;
use commands::{check, merge, prove, status};
use evidence_store::{Evidence, PlainStore};
use log_chain::Hash;
use ref_programs::Tally;
use sha2::{Digest, Sha256};
use std::alloc::Global;
use std::io;

/// A command of `node_sim`.
#[derive(Clone, Copy)]
pub enum Command {
    Status,
    Merge,
    Prove,
    Check,
}

/// A writer that takes no memory. It keeps how many bytes were written, and their digest.
#[derive(Drop)]
struct Written {
    len: u64,
    digest: Sha256,
}

impl Written {
    fn new() -> Written {
        Written {
            len: 0,
            digest: Sha256::new(),
        }
    }
}

impl io::Write for Written {
    fn write(&mut self, buf: &[u8]) -> io::Result<usize> {
        self.len = self.len.saturating_add(buf.len() as u64);
        self.digest.update(buf);
        Ok(buf.len())
    }

    fn flush(&mut self) -> io::Result<()> {
        Ok(())
    }
}

/// A command with its input, and the length and the digest of what was written when it ran last.
#[derive(Drop)]
struct Running {
    command: Command,
    input: Vec<u8>,
    len: u64,
    digest: Hash,
}

/// Runs the command's engine.
fn run(alloc: Global, command: Command, input: &[u8]) -> (Result<(), Fault>, Written) {
    let mut reader = CountedReader::new(input);
    let mut writer = CountedWriter::new(Written::new());
    let answer = match command {
        Command::Status => status::run(alloc, &Tally, &mut reader, &mut writer),
        Command::Merge => merge::run(alloc, &Tally, &mut reader, &mut writer),
        Command::Prove => prove::run(alloc, &Tally, NodeId(2), &mut reader, &mut writer),
        Command::Check => check::run(alloc, &Tally, &mut reader, &mut writer),
    };
    (answer, writer.writer)
}

impl Scene for Running {
    fn say(&self, rt: &HostRuntime, word: &str) -> Result<()> {
        let (len, digest) = (self.len, self.digest);
        println!(rt; "{word} {len} {digest}")?;
        Ok(())
    }

    fn call(&mut self, rt: &HostRuntime, turn: Turn) -> Result<bool> {
        turn.begin(rt.alloc())?;
        let (answer, written) = run(rt.alloc(), self.command, &self.input);
        turn.end(rt.alloc());
        self.len = written.len;
        self.digest = Hash(written.digest.finalize());
        match answer {
            Ok(()) => {
                let word = turn.word();
                println!(rt; "{word} ok")?;
                Ok(false)
            }
            Err(fault) => say_refusal(rt, turn, fault.number(), fault.name()),
        }
    }
}

/// Adds a line of the bytes in hexadecimal digits.
fn push_line(alloc: Global, input: &mut Vec<u8>, bytes: &[u8]) -> Result<()> {
    let digits = hex::encode(alloc, bytes)?;
    input.extend_from_slice(digits.as_bytes())?;
    input.push(b'\n')?;
    Ok(())
}

type Store = PlainStore<Tally>;

/// Adds the line of a store that exposes node 2.
fn push_second(alloc: Global, input: &mut Vec<u8>, directory: &Directory) -> Result<()> {
    let second: Box<Store> = second_store(alloc, directory)?;
    push_line(alloc, input, &second.export()?)
}

/// Adds the lines of two stores.
fn push_stores(alloc: Global, input: &mut Vec<u8>, directory: &Directory) -> Result<()> {
    let first: Box<Store> = first_store(alloc, directory)?;
    push_line(alloc, input, &first.export()?)?;
    push_second(alloc, input, directory)
}

/// Adds the line of a proof against node 2.
fn push_proof(alloc: Global, input: &mut Vec<u8>, directory: &Directory) -> Result<()> {
    let store: Box<Store> = second_store(alloc, directory)?;
    match store.proof(NodeId(2))? {
        Some(proof) => push_line(alloc, input, &proof.encode(alloc)?),
        None => bail!("no proof"),
    }
}

/// Returns the command's input.
fn input_of(alloc: Global, command: Command) -> Result<Vec<u8>> {
    let directory = directory_of(alloc)?;
    let mut input = Vec::new(alloc);
    push_line(alloc, &mut input, &directory.to_bytes()?)?;
    match command {
        Command::Check => push_proof(alloc, &mut input, &directory)?,
        Command::Merge => push_stores(alloc, &mut input, &directory)?,
        _ => push_second(alloc, &mut input, &directory)?,
    }
    Ok(input)
}

/// Plays the command's engine.
pub fn play_command(rt: &HostRuntime, command: Command) -> Result<()> {
    let mut scene = Running {
        command,
        input: input_of(rt.alloc(), command)?,
        len: 0,
        digest: digest(&[]),
    };
    play(rt, &mut scene)
}
