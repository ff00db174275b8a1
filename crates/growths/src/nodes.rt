//! The scene of a node that receives a message.

use crate::samples::{ENTROPY, begin, directory_of, message};
use crate::told::{Scene, Turn, play, say_refusal};
use anyhow::Result;
use commitment::{Ack, Message, Node};
use log_chain::Hash;
use ref_programs::Tally;
use sha2::{Digest, Sha256};

/// A node, and a message to it.
#[derive(Drop)]
struct Receiving {
    node: Box<Node<Tally>>,
    message: Box<Message>,
}

fn feed_number(digest: &mut Sha256, number: u64) {
    digest.update(number.to_be_bytes());
}

fn feed_bytes(digest: &mut Sha256, bytes: &[u8]) {
    feed_number(digest, bytes.len() as u64);
    digest.update(bytes);
}

fn feed_message(digest: &mut Sha256, message: &Message) {
    feed_number(digest, u64::from(message.from.0));
    feed_number(digest, u64::from(message.to.0));
    feed_number(digest, message.seq);
    digest.update(message.prev.0);
    feed_bytes(digest, message.sig.as_slice());
    feed_bytes(digest, message.payload.as_slice());
}

fn feed_ack(digest: &mut Sha256, ack: &Ack) {
    feed_number(digest, u64::from(ack.from.0));
    feed_number(digest, ack.send_seq);
    feed_number(digest, ack.seq);
    digest.update(ack.prev.0);
    feed_bytes(digest, ack.sig.as_slice());
}

/// Returns the digest of the acknowledgement and the messages.
fn digest_of(ack: &Ack, messages: &[Message]) -> Hash {
    let mut digest = Sha256::new();
    feed_ack(&mut digest, ack);
    for message in messages {
        feed_message(&mut digest, message);
    }
    Hash(digest.finalize())
}

/// Returns the digest of what the node signed.
fn signed_by(node: &Node<Tally>) -> Hash {
    let mut digest = Sha256::new();
    for statement in node.signed() {
        feed_number(&mut digest, statement.seq);
        digest.update(statement.hash.0);
        feed_bytes(&mut digest, statement.sig.as_slice());
    }
    Hash(digest.finalize())
}

/// Writes a line about the node: the digest of what it signed, the number and the hash of its log's end, how many messages await their
/// acknowledgements, how many leaves are left, and whether it has received the message.
fn say_node(rt: &HostRuntime, word: &str, node: &Node<Tally>, message: &Message) -> Result<()> {
    let signed = signed_by(node);
    let (seq, end) = match node.history().last() {
        Some(last) => last,
        None => (0, Hash([0; 32])),
    };
    let awaited = node.unacknowledged().len();
    let left = node.remaining();
    let has = node.received(message.from, message.seq).is_some();
    println!(rt; "{word} {signed} {seq} {end} {awaited} {left} {has}")?;
    Ok(())
}

impl Scene for Receiving {
    fn say(&self, rt: &HostRuntime, word: &str) -> Result<()> {
        say_node(rt, word, &self.node, &self.message)
    }

    fn call(&mut self, rt: &HostRuntime, turn: Turn) -> Result<bool> {
        turn.begin(rt.alloc())?;
        let answer = self.node.receive(&self.message, ENTROPY);
        turn.end(rt.alloc());
        match answer {
            Ok((ack, messages)) => {
                let word = turn.word();
                let digest = digest_of(&ack, &messages);
                println!(rt; "{word} ok {digest}")?;
                Ok(false)
            }
            Err(fault) => say_refusal(rt, turn, fault.number(), fault.name()),
        }
    }
}

/// Plays `Node::receive` of a message to which the node replies.
pub fn receive(rt: &HostRuntime) -> Result<()> {
    let directory = directory_of(rt.alloc())?;
    let mut scene = Receiving {
        node: begin(rt.alloc(), &directory, 2)?,
        message: message(rt.alloc(), &directory)?,
    };
    play(rt, &mut scene)
}

/// Plays the same of a message that the node received before.
pub fn receive_again(rt: &HostRuntime) -> Result<()> {
    let directory = directory_of(rt.alloc())?;
    let mut scene = Receiving {
        node: begin(rt.alloc(), &directory, 2)?,
        message: message(rt.alloc(), &directory)?,
    };
    scene.node.receive(&scene.message, ENTROPY)?;
    play(rt, &mut scene)
}
