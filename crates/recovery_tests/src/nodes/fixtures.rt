//! What the tests of nodes share: journals, nodes that live by them, and what is looked at of a node.

use crate::texts::{acknowledged, beginning, checkpointed, directory, received, rekeyed, ticked};
use authenticators::{Authenticator, Directory};
use commitment::{Ack, Message, Node};
use log_chain::Hash;
use node_journals::{Drafted, Journalled, RebuildFault, Recorded, Reply, Secret, rebuild};
use ref_programs::Tally;
use sha2::{Digest, Sha256};
use std::alloc::Global;
use std::test::Fail;

/// The secret of a node's key with this number.
pub fn secret_of(node: u8, number: u8) -> Secret {
    let mut id = [number; 16];
    id[12..].copy_from_slice(&[0, 0, 0, node]);
    let mut seed = [number; 32];
    seed[28..].copy_from_slice(&[0, 0, 0, node]);
    Secret { id, seed }
}

/// The secrets of node 2.
pub fn secrets() -> [Secret; 2] {
    [secret_of(2, 0), secret_of(2, 1)]
}

/// The texts of its journal.
pub fn whole() -> [&'static str; 6] {
    [
        beginning(),
        received(),
        ticked(),
        checkpointed(),
        acknowledged(),
        rekeyed(),
    ]
}

/// The hash in hexadecimal.
pub fn hash_of(digits: &str) -> Result<Hash, Fail> {
    let mut hash = [0u8; 32];
    hex::decode_to_slice(digits, &mut hash)?;
    Ok(Hash(hash))
}

/// The directory in hexadecimal.
pub fn directory_of(alloc: Global, digits: &str) -> Result<Directory, Fail> {
    Ok(Directory::from_bytes(alloc, &hex::decode(alloc, digits)?)?)
}

/// The texts in hexadecimal.
pub fn texts_of(alloc: Global, digits: &[&str]) -> Result<Vec<Vec<u8>>, Fail> {
    let mut texts = Vec::new(alloc);
    for text in digits {
        texts.push(hex::decode(alloc, *text)?)?;
    }
    Ok(texts)
}

/// The node of the texts, or why it is not rebuilt, under this name and the directory of this text, and of these secrets.
pub fn rebuild_by(
    alloc: Global,
    name: &[u8],
    listed: &[u8],
    secrets: &[Secret],
    texts: &[Vec<u8>],
) -> Result<Result<Box<Journalled<Tally>>, RebuildFault>, Fail> {
    let directory = Directory::from_bytes(alloc, listed)?;
    match rebuild(alloc, Tally, name, directory, secrets, texts) {
        Ok(node) => Ok(Ok(Box::new(alloc, node)?)),
        Err(fault) => Ok(Err(fault)),
    }
}

/// Node 2 of these texts, in hexadecimal.
pub fn rebuild_of(alloc: Global, digits: &[&str]) -> Result<Box<Journalled<Tally>>, Fail> {
    let listed = hex::decode(alloc, directory())?;
    let texts = texts_of(alloc, digits)?;
    Ok(rebuild_by(alloc, b"tally", &listed, &secrets(), &texts)??)
}

/// What the text records, drafted of node 2's secrets.
pub fn draft_of(alloc: Global, digits: &str) -> Result<Drafted, Fail> {
    let recorded = Recorded::from_bytes(alloc, &hex::decode(alloc, digits)?)?;
    match recorded.draft(alloc, &secrets()) {
        Ok(drafted) => Ok(drafted),
        Err(refused) => Err(refused.fault)?,
    }
}

/// Gives the node what the text records. Feeds what it answers.
pub fn give(
    alloc: Global,
    node: Box<Journalled<Tally>>,
    digits: &str,
    digest: &mut Sha256,
) -> Result<Box<Journalled<Tally>>, Fail> {
    let Drafted { text: _text, draft } = draft_of(alloc, digits)?;
    let (node, reply) = Box::into_inner(node).give(draft)?;
    feed_reply(digest, &reply);
    Ok(Box::new(alloc, node)?)
}

/// Gives the node all that the texts record, in order. Feeds what it answers.
pub fn give_all(
    alloc: Global,
    node: Box<Journalled<Tally>>,
    digits: &[&str],
    digest: &mut Sha256,
) -> Result<Box<Journalled<Tally>>, Fail> {
    let mut node = node;
    for text in digits {
        node = give(alloc, node, text, digest)?;
    }
    Ok(node)
}

/// Feeds a message's fields in order, and before each text its length in 8 bytes.
pub fn feed_message(digest: &mut Sha256, message: &Message) {
    digest.update(message.from.0.to_be_bytes());
    digest.update(message.to.0.to_be_bytes());
    digest.update(message.seq.to_be_bytes());
    digest.update(message.prev.0);
    digest.update(message.sig.len().to_be_bytes());
    digest.update(message.sig.as_slice());
    digest.update(message.payload.len().to_be_bytes());
    digest.update(message.payload.as_slice());
}

fn feed_messages(digest: &mut Sha256, messages: &[Message]) {
    for message in messages {
        feed_message(digest, message);
    }
}

/// Feeds an acknowledgement in the same way.
fn feed_ack(digest: &mut Sha256, ack: &Ack) {
    digest.update(ack.from.0.to_be_bytes());
    digest.update(ack.send_seq.to_be_bytes());
    digest.update(ack.seq.to_be_bytes());
    digest.update(ack.prev.0);
    digest.update(ack.sig.len().to_be_bytes());
    digest.update(ack.sig.as_slice());
}

/// Feeds the kind of the call's record and what the call answers; of a refusal 0 and its number.
fn feed_reply(digest: &mut Sha256, reply: &Reply) {
    match reply {
        Reply::Received(ack, messages) => {
            digest.update([1]);
            feed_ack(digest, ack);
            feed_messages(digest, messages);
        }
        Reply::Ticked(messages) => {
            digest.update([2]);
            feed_messages(digest, messages);
        }
        Reply::Checkpointed(seq) => {
            digest.update([3]);
            digest.update(seq.to_be_bytes());
        }
        Reply::Acknowledged => digest.update([4]),
        Reply::Rekeyed => digest.update([5]),
        Reply::Refused(fault) => digest.update([0, fault.number()]),
        Reply::KeyRefused(fault) => digest.update([0, fault.number()]),
    }
}

/// The digest of the statements, in order.
fn digest_of(signed: &[Authenticator]) -> Hash {
    let mut digest = Sha256::new();
    for statement in signed {
        digest.update(statement.node.0.to_be_bytes());
        digest.update(statement.seq.to_be_bytes());
        digest.update(statement.hash.0);
        digest.update(statement.sig.len().to_be_bytes());
        digest.update(statement.sig.as_slice());
    }
    Hash(digest.finalize())
}

/// What tests look at of a node.
#[derive(Clone, Copy, Debug, PartialEq, Eq)]
pub struct Seen {
    /// How many there are of entries, statements, awaited acknowledgements, and leaves that have not signed.
    pub counts: (usize, usize, usize, u32),
    /// The number and the hash of the log's last entry.
    pub last: Option<(u64, Hash)>,
    /// The digest of the statements.
    pub signed: Hash,
}

impl Seen {
    pub fn of(node: &Node<Tally>) -> Seen {
        Seen {
            counts: (
                node.history().entries().len(),
                node.signed().len(),
                node.unacknowledged().len(),
                node.remaining(),
            ),
            last: node.history().last(),
            signed: digest_of(node.signed()),
        }
    }

    /// A node with these counts, whose last entry has this number, and this hash and digest in hexadecimal.
    pub fn wanted(
        counts: (usize, usize, usize, u32),
        seq: u64,
        end: &str,
        signed: &str,
    ) -> Result<Seen, Fail> {
        Ok(Seen {
            counts,
            last: Some((seq, hash_of(end)?)),
            signed: hash_of(signed)?,
        })
    }
}
