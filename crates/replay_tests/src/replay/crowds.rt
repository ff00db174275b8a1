//! Replay under a program whose step puts out more than is sent: of forty outputs the first sixteen that are to other listed
//! nodes.

ghost use Rattle.std.specs.Prelude.{◌≡◌, IfOk};
ghost use Rattle.ref_programs.specs.Counters.{IsCounter};
ghost use Rattle.replay_tests.specs.Crowd.{crowd, crowding, crowding_lawful};

use authenticators::{Directory, NodeId};
use lms_sign::PublicKey;
use log_chain::{ByteString, Entry, base_hash, kind};
use outcome::Memory;
use ref_programs::Tally;
use replay_verifier::{Input, Output, OutputList, Program, Reason, Step, Verdict, replay};
use std::alloc::Global;
use std::test::Fail;

/// Its timer puts out an empty message to each of the nodes 0 to 39.
struct Crowd;

/// The messages.
fn forty_outputs(alloc: Global) -> Result<Vec<Output>, Memory>
    ensures { IfOk result (λ v. v.items ≡ crowd 40) }
{
    let mut outputs = Vec::new(alloc);
    for node in 0..40 {
        outputs.push(Output {
            to: NodeId(node),
            payload: ByteString::from_vec(Vec::new(alloc)),
        })?;
    }
    Ok(outputs)
}

impl Program for Crowd {
    type State = u64;

    ghost means = { crowding };

    ghost is_state = { IsCounter };

    fn start(&self, _alloc: Global, _me: NodeId) -> Result<u64, Memory> {
        Ok(0)
    }

    fn step(
        &self,
        alloc: Global,
        _me: NodeId,
        state: &u64,
        input: &Input,
    ) -> Result<Step<u64>, Memory> {
        let outputs = match input {
            Input::Recv { .. } => Vec::new(alloc),
            Input::Timer { .. } => forty_outputs(alloc)?,
        };
        Ok(Step {
            state: *state,
            outputs: OutputList::from_vec(outputs),
        })
    }

    fn encode(&self, alloc: Global, state: &u64) -> Result<Vec<u8>, Memory> {
        Ok(Tally.encode(alloc, state)?)
    }

    fn decode(&self, alloc: Global, bytes: &[u8]) -> Result<Option<u64>, Memory> {
        Ok(Tally.decode(alloc, bytes)?)
    }

    ghost lawful = { crowding_lawful };
}

/// The nodes 1 to 20, with keys that sign nothing.
fn twenty_nodes(alloc: Global) -> Result<Box<Directory>, Fail> {
    let mut directory = Box::new(alloc, Directory::new(alloc))?;
    for node in 1..21 {
        let mut text = [node; 56];
        text[..8].copy_from_slice(&[0, 0, 0, 5, 0, 0, 0, 4]);
        directory.add(NodeId(u32::from(node)), PublicKey::from_bytes(&text)?)?;
    }
    Ok(directory)
}

fn log_entry(alloc: Global, log: &mut Vec<Entry>, kind: u8, content: &[u8]) -> Result<(), Memory> {
    let seq = log.len() as u64;
    let content = ByteString::from_slice(alloc, content)?;
    log.push(Entry { seq, kind, content })?;
    Ok(())
}

/// Node 2's INIT and TIMER, a SEND to each other node up to `last`, and a CHECKPOINT.
fn log_up_to(alloc: Global, last: u32) -> Result<Vec<Entry>, Memory> {
    let mut log = Vec::new(alloc);
    log_entry(alloc, &mut log, kind::INIT, &[0, 0, 0, 2])?;
    log_entry(alloc, &mut log, kind::TIMER, &[0; 8])?;
    for node in 1..last {
        if node != 2 {
            log_entry(alloc, &mut log, kind::SEND, &node.to_be_bytes())?;
        }
    }
    log_entry(alloc, &mut log, kind::CHECKPOINT, &[0; 8])?;
    Ok(log)
}

fn verdict_up_to(alloc: Global, directory: &Directory, last: u32) -> Result<Verdict, Fail> {
    let log = log_up_to(alloc, last)?;
    Ok(replay(alloc, &Crowd, directory, NodeId(2), base_hash(), &log)?)
}

/// The nodes 1 and 3 to 17 are the first sixteen.
#[test]
fn sixteen_of_many_outputs_are_sent(rt: HostRuntime) -> Result<(), Fail> {
    let alloc = rt.alloc();
    let directory = twenty_nodes(alloc)?;
    for (last, verdict) in [
        (18, Verdict::Conforms),
        (
            17,
            Verdict::Deviates {
                at: 17,
                reason: Reason::MissingOutput,
            },
        ),
        (
            19,
            Verdict::Deviates {
                at: 18,
                reason: Reason::ExtraOutput,
            },
        ),
    ] {
        assert!(rt; verdict_up_to(alloc, &directory, last)? == verdict);
    }
    Ok(())
}
